//! The leaves that items had.
ghost use Rattle.std.specs.Prelude.{◌≡◌, ◌++◌, ◌∷◌, [], IfOk, OnOk, cond, flat_map};
ghost use Rattle.std.specs.Prelude as prelude;
ghost use Rattle.address_map.specs.Places.{addresses};
ghost use Rattle.item_leaves.specs.ItemLeaves.{item_of, those_of};
ghost use Rattle.leaf_update.specs.Others.{among, objective_addresses};
ghost use Rattle.leaf_update.specs.Splice.{gone_in};
ghost use Rattle.found_plan.specs.Stood.{has_leaf, old_leaves, old_variables, own_leaves};

use address_map::AddressMap;
use aff_core::{Address, Root};
use item_leaves::{list_rows, list_variables};
use leaf_update::GoneLeaves;
use lists::{Memory, Sequence};
use solver_store::SolverModel;
use std::alloc::Global;
use user_model::{Group, GroupVar};

/// The addresses of the leaves at and below items, of the variables that groups have of their own,
/// and of the objective, where it is of one of these items.
pub fn old_leaves(
    alloc: Global,
    map: &AddressMap,
    solver: &SolverModel,
    objective_at: &Address,
    groups: &[&Group],
    items: &[Address],
) -> Result<GoneLeaves, Memory>
    ensures { IfOk result (λ had. gone_in had ≡ old_leaves map.now solver.now.leaves
        objective_at.now (prelude.map (λ g. g.now) groups.now) items.now) }
{
    Ok(GoneLeaves {
        variables: old_variables(alloc, map, groups, items)?,
        rows: old_rows(alloc, map, items)?,
        objective: old_objective(alloc, solver, objective_at, items)?,
    })
}

fn old_variables(
    alloc: Global,
    map: &AddressMap,
    groups: &[&Group],
    items: &[Address],
) -> Result<Vec<Address>, Memory>
    ensures { IfOk result (λ had. had.items
        ≡ old_variables map.now (prelude.map (λ g. g.now) groups.now) items.now) }
{
    let mut had = Sequence::new(alloc);
    for group in groups {
        list_own(map, group.vars.as_slice(), &mut had)?;
    }
    for at in items {
        list_variables(map, at, &mut had)?;
    }
    Ok(had.into_vec())
}

// Lists the variables that are leaves.
fn list_own(map: &AddressMap, vars: &[GroupVar], list: &mut Sequence<Address>) -> Result<(), Memory>
    ensures { OnOk result (list.new ≡ list.old ++ own_leaves map.now vars.now) }
{
    for var in vars {
        list_leaf(map, Address::root(Root::Variable, var.number), list)?;
    }
    Ok(())
}

// Lists a variable that is a leaf.
fn list_leaf(map: &AddressMap, at: Address, list: &mut Sequence<Address>) -> Result<(), Memory>
    ensures { OnOk result (list.new ≡ list.old ++ cond (has_leaf map.now at) (at ∷ []) []) }
{
    if map.var_index(&at).is_none() {
        return Ok(());
    }
    match list.push(at) {
        Ok(()) => Ok(()),
        Err((_, memory)) => Err(memory),
    }
}

fn old_rows(alloc: Global, map: &AddressMap, items: &[Address]) -> Result<Vec<Address>, Memory>
    ensures { IfOk result (λ had. had.items
        ≡ flat_map (λ at. those_of at (addresses map.now.rows.indices)) items.now) }
{
    let mut had = Sequence::new(alloc);
    for at in items {
        list_rows(map, at, &mut had)?;
    }
    Ok(had.into_vec())
}

fn old_objective(
    alloc: Global,
    solver: &SolverModel,
    objective_at: &Address,
    items: &[Address],
) -> Result<Vec<Address>, Memory>
    ensures { IfOk result (λ had. had.items
        ≡ cond (among items.now (item_of objective_at.now))
        (objective_addresses solver.now.leaves objective_at.now) []) }
{
    let mut had = Vec::new(alloc);
    let item = Address::root(objective_at.kind(), objective_at.number());
    if solver.objective().is_some() && is_among(items, &item) {
        had.push(*objective_at)?;
    }
    Ok(had)
}

fn is_among(items: &[Address], at: &Address) -> bool
    ensures { result ≡ among items.now at.now }
{
    items.iter().any(|item| *at == *item)
}
