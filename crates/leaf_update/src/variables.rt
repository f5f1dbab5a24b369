//! Leaf variables set and removed, one after another.
ghost use Rattle.std.specs.Prelude.{◌≡◌, ◌↔◌, ◌≤◌, ◌*◌, ◌-◌, ◌^◌, IfOk, IsSome, IsTrue, flat_map, length};
ghost use Rattle.std.specs.FinMap as finite;
ghost use Rattle.leaf_update.specs.Named.{NamesEach};
ghost use Rattle.fresh_bridging.specs.Leaves.{leaf_variable, leaf_variables};
ghost use Rattle.leaf_update.specs.Puts.{variables_as, variables_in};
ghost use Rattle.leaf_update.specs.Phases.{AreDroppable, CountsAt, HasDropped, SetsVariables};
ghost use Rattle.leaf_update.specs.Splice.{HaveDistinctKeys, without_all};
ghost use Rattle.leaf_update.specs.Steps.{DropsVariable, NobodyNames, SetsVariable};

use address_map::AddressMap;
use aff_core::Address;
use item_core::{Body, Item};
use lists::Memory;
use set_core::Set;
use solver_store::{LeafVar, SolverModel};

// Sets a leaf variable at an address: it is added, or changed in place, or the same already. The
// answer is 1 where something changed.
fn set_variable(
    solver: &mut SolverModel,
    map: &mut AddressMap,
    at: &Address,
    var: LeafVar,
) -> Result<u8, Memory>
    requires named { NamesEach map.old solver.old.leaves }
    ensures set { IfOk result (λ n. SetsVariable map.old solver.old.leaves at.now var n
        map.new solver.new.leaves) }
    ensures few { IfOk result (λ n. n ≤ 1) }
{
    // what this ensures of the count
    let _few = solver.calls();
    let Some(i) = map.var_index(at) else {
        let i = solver.add_var(var)?;
        map.put_var(*at, i)?;
        return Ok(1);
    };
    if is_kept(solver.var(i), var) {
        return Ok(0);
    }
    solver.change_var(i, var);
    Ok(1)
}

// Removes a leaf variable that no row and no objective names.
fn drop_variable(solver: &mut SolverModel, map: &mut AddressMap, at: &Address)
    requires named { NamesEach map.old solver.old.leaves }
    requires there { IsSome (finite.get map.old.vars.indices at.now) }
    requires nobody { NobodyNames map.old solver.old.leaves at.now }
    ensures dropped { DropsVariable map.old solver.old.leaves at.now 1
        map.new solver.new.leaves }
{
    // what these ensure of the count and of the map
    let _few = solver.calls();
    let _one_to_one = map.var_at(0);
    let Some(i) = map.drop_var(at) else {
        unreachable!()
    };
    solver.remove_var(i);
}

// Removes leaf variables that no row and no objective names.
pub(crate) fn drop_variables(solver: &mut SolverModel, map: &mut AddressMap, gone: &[Address])
    requires named { NamesEach map.old solver.old.leaves }
    requires droppable { AreDroppable map.old solver.old.leaves gone.now }
    ensures dropped { HasDropped map.old solver.old.leaves (length gone.now)
        map.new solver.new.leaves }
    ensures gone { variables_in map.new solver.new.leaves
        ≡ without_all (variables_in map.old solver.old.leaves) gone.now }
    ensures counts { CountsAt (variables_in map.old solver.old.leaves)
        (variables_in map.new solver.new.leaves) gone.now (length gone.now) }
{
    for at in gone {
        drop_variable(solver, map, at);
    }
}

// Sets the variables of leaves. The answer is how many were added or changed.
pub(crate) fn set_variables(
    solver: &mut SolverModel,
    map: &mut AddressMap,
    leaves: &[Item],
) -> Result<u128, Memory>
    requires named { NamesEach map.old solver.old.leaves }
    requires apart { HaveDistinctKeys (flat_map leaf_variables leaves.now) }
    ensures set { IfOk result (λ n. SetsVariables map.old solver.old.leaves
        (flat_map leaf_variables leaves.now) n map.new solver.new.leaves) }
    ensures few { IfOk result (λ n. n ≤ (2 ^ 64 - 1) * length leaves.now) }
{
    let mut changed: u128 = 0;
    for leaf in leaves {
        changed += u128::from(set_leaf(solver, map, leaf)?);
    }
    Ok(changed)
}

fn set_leaf(solver: &mut SolverModel, map: &mut AddressMap, leaf: &Item) -> Result<u64, Memory>
    requires named { NamesEach map.old solver.old.leaves }
    requires apart { HaveDistinctKeys (leaf_variables leaf.now) }
    ensures set { IfOk result (λ n. SetsVariables map.old solver.old.leaves
        (leaf_variables leaf.now) n map.new solver.new.leaves) }
    ensures few { IfOk result (λ n. n ≤ 2 ^ 64 - 1) }
{
    match &leaf.body {
        Body::Group { set, vars } => {
            set_each(solver, map, vars.as_slice(), created_variable(set))
        }
        Body::Free { vars } => set_each(solver, map, vars.as_slice(), LeafVar::Free),
        _ => Ok(0),
    }
}

// The kind of variable that a native group has.
fn created_variable(set: &Set) -> LeafVar
    ensures { result ≡ leaf_variable set.now }
{
    match set {
        Set::Nonnegatives { .. } => LeafVar::Nonneg,
        _ => LeafVar::Free,
    }
}

fn set_each(
    solver: &mut SolverModel,
    map: &mut AddressMap,
    vars: &[Address],
    var: LeafVar,
) -> Result<u64, Memory>
    requires named { NamesEach map.old solver.old.leaves }
    requires apart { HaveDistinctKeys (variables_as var vars.now) }
    ensures set { IfOk result (λ n. SetsVariables map.old solver.old.leaves
        (variables_as var vars.now) n map.new solver.new.leaves) }
    ensures few { IfOk result (λ n. n ≤ 2 ^ 64 - 1) }
{
    let mut changed: u64 = 0;
    for at in vars {
        changed += u64::from(set_variable(solver, map, at, var)?);
    }
    Ok(changed)
}

fn is_kept(held: Option<LeafVar>, var: LeafVar) -> bool
    ensures { IsTrue result ↔ (held ≡ Some var) }
{
    held == Some(var)
}
