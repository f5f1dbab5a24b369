//! The leaves of a solver's model put as a whole: those at other addresses are removed.
ghost use Rattle.std.specs.Prelude.{◌≡◌, ◌++◌, ◌∷◌, [], IfOk, OnOk, false, flat_map, true};
ghost use Rattle.address_map.specs.Places.{addresses};
ghost use Rattle.fresh_bridging.specs.Leaves.{leaf_model_of, leaf_objectives, leaf_rows, leaf_variables};
ghost use Rattle.leaf_update.specs.Leaves.{AreLeaves};
ghost use Rattle.leaf_update.specs.Named.{NamesEach};
ghost use Rattle.leaf_update.specs.Others.{among, objective_addresses, others, others_in};
ghost use Rattle.leaf_update.specs.Splice.{IsChangedTo, gone_in, keys_of};

use crate::change::{GoneLeaves, change_leaves};
use crate::objective::is_objective;
use crate::rows::is_no_row;
use crate::sorted::SortedAddresses;
use address_map::AddressMap;
use aff_core::Address;
use item_core::{Body, Item};
use lists::Memory;
use solver_store::SolverModel;
use std::alloc::Global;

/// Puts leaves as the whole of a solver's model. A leaf that is there already is changed in place,
/// under the index that it has, and nothing is called where it is the same.
///
/// The answer is the number of addresses at which the leaves differ, and the solver's model is
/// called no more often. After `Memory` some of this may be done.
pub fn replace_leaves(
    alloc: Global,
    solver: &mut SolverModel,
    map: &mut AddressMap,
    objective_at: &mut Address,
    leaves: &[Item],
) -> Result<u128, Memory>
    requires leaves { AreLeaves leaves.now }
    requires named { NamesEach map.old solver.old.leaves }
    ensures replaced { IfOk result (λ n. IsChangedTo (leaf_model_of leaves.now) solver.old map.old
        objective_at.old n solver.new map.new objective_at.new) }
{
    let gone = other_leaves(alloc, solver, map, objective_at, leaves)?;
    change_leaves(alloc, solver, map, objective_at, &gone, leaves)
}

// The leaves at other addresses than those that are put.
fn other_leaves(
    alloc: Global,
    solver: &SolverModel,
    map: &AddressMap,
    objective_at: &Address,
    leaves: &[Item],
) -> Result<GoneLeaves, Memory>
    ensures { IfOk result (λ gone.
        gone_in gone ≡ others_in map.now solver.now.leaves objective_at.now leaves.now) }
{
    Ok(GoneLeaves {
        variables: other_variables(alloc, map, leaves)?,
        rows: other_rows(alloc, map, leaves)?,
        objective: other_objective(alloc, solver, objective_at, leaves)?,
    })
}

fn other_variables(alloc: Global, map: &AddressMap, leaves: &[Item]) -> Result<Vec<Address>, Memory>
    ensures { IfOk result (λ gone. gone.items
        ≡ others (keys_of (flat_map leaf_variables leaves.now)) (addresses map.now.vars.indices)) }
{
    let mut gone = Vec::new(alloc);
    if map.var_count() == 0 {
        return Ok(gone);
    }
    let put = variables_put(alloc, leaves)?;
    for entry in map.vars() {
        push_other(&mut gone, &put, entry.0)?;
    }
    Ok(gone)
}

fn other_rows(alloc: Global, map: &AddressMap, leaves: &[Item]) -> Result<Vec<Address>, Memory>
    ensures { IfOk result (λ gone. gone.items
        ≡ others (keys_of (flat_map leaf_rows leaves.now)) (addresses map.now.rows.indices)) }
{
    let mut gone = Vec::new(alloc);
    if map.row_count() == 0 {
        return Ok(gone);
    }
    let put = rows_put(alloc, leaves)?;
    for entry in map.rows() {
        push_other(&mut gone, &put, entry.0)?;
    }
    Ok(gone)
}

fn other_objective(
    alloc: Global,
    solver: &SolverModel,
    objective_at: &Address,
    leaves: &[Item],
) -> Result<Vec<Address>, Memory>
    ensures { IfOk result (λ gone. gone.items
        ≡ others (keys_of (flat_map leaf_objectives leaves.now))
        (objective_addresses solver.now.leaves objective_at.now)) }
{
    let mut gone = Vec::new(alloc);
    if solver.objective().is_none() || puts_objective(objective_at, leaves) {
        return Ok(gone);
    }
    gone.push(*objective_at)?;
    Ok(gone)
}

// Whether a leaf is an objective at the address.
pub(crate) fn puts_objective(at: &Address, leaves: &[Item]) -> bool
    ensures { result ≡ among (keys_of (flat_map leaf_objectives leaves.now)) at.now }
{
    for leaf in leaves {
        if is_objective(leaf) && *at == leaf.at {
            return true;
        }
    }
    false
}

// Pushes an address at which nothing is put.
fn push_other(gone: &mut Vec<Address>, put: &SortedAddresses, at: Address) -> Result<(), Memory>
    ensures there { among put.now at ≡ true → OnOk result (gone.new.items ≡ gone.old.items) }
    ensures absent { among put.now at ≡ false
        → OnOk result (gone.new.items ≡ gone.old.items ++ at ∷ []) }
{
    if !put.contains(&at) {
        gone.push(at)?;
    }
    Ok(())
}

// The addresses of the variables among leaves.
pub(crate) fn variables_put(alloc: Global, leaves: &[Item]) -> Result<SortedAddresses, Memory>
    ensures { IfOk result (λ put.
        among put ≡ among (keys_of (flat_map leaf_variables leaves.now))) }
{
    let mut put = Vec::new(alloc);
    for leaf in leaves {
        add_variables(&mut put, leaf)?;
    }
    Ok(SortedAddresses::of(put))
}

fn add_variables(put: &mut Vec<Address>, leaf: &Item) -> Result<(), Memory>
    ensures { OnOk result (put.new.items ≡ put.old.items ++ keys_of (leaf_variables leaf.now)) }
{
    if let Body::Group { vars, .. } | Body::Free { vars } = &leaf.body {
        put.extend_from_slice(vars.as_slice())?;
    }
    Ok(())
}

// The addresses of the rows among leaves.
pub(crate) fn rows_put(alloc: Global, leaves: &[Item]) -> Result<SortedAddresses, Memory>
    ensures { IfOk result (λ put. among put ≡ among (keys_of (flat_map leaf_rows leaves.now))) }
{
    let mut put = Vec::new(alloc);
    for leaf in leaves {
        add_row(&mut put, leaf)?;
    }
    Ok(SortedAddresses::of(put))
}

fn add_row(put: &mut Vec<Address>, leaf: &Item) -> Result<(), Memory>
    ensures { OnOk result (put.new.items ≡ put.old.items ++ keys_of (leaf_rows leaf.now)) }
{
    if !is_no_row(leaf) {
        put.push(leaf.at)?;
    }
    Ok(())
}
