//! Leaves of a solver's model changed in place.
ghost use Rattle.std.specs.Prelude.{◌≡◌, IfOk, OnOk};
ghost use Rattle.leaf_update.specs.Named.{NamesEach};
ghost use Rattle.leaf_update.specs.Splice.{IsSplice, IsSplicedInto, gone_in};
ghost use Rattle.leaf_update.specs.Steps.{rest_of};
ghost use Rattle.leaf_model.specs.ReadThrough.{read_through};

use crate::objective::change_objective;
use crate::rows::{drop_rows, set_rows};
use crate::variables::{drop_variables, set_variables};
use address_map::AddressMap;
use aff_core::Address;
use item_core::Item;
use lists::Memory;
use solver_store::SolverModel;
use std::alloc::Global;

/// The addresses of old leaves that are removed, and at which no leaf is put.
#[derive(Debug, Drop)]
pub struct GoneLeaves {
    pub variables: Vec<Address>,
    pub rows: Vec<Address>,
    pub objective: Vec<Address>,
}

/// Removes the leaves at some addresses and puts others. A leaf that is put where there is one is
/// changed in place, under the index that it has, and nothing is called where it is the same.
///
/// The answer is the number of addresses at which the leaves differ, and the solver's model is
/// called no more often. Rows are put after the variables that they name, and variables are removed
/// after the rows that named them. After `Memory` some of this may be done.
pub fn change_leaves(
    alloc: Global,
    solver: &mut SolverModel,
    map: &mut AddressMap,
    objective_at: &mut Address,
    gone: &GoneLeaves,
    leaves: &[Item],
) -> Result<u128, Memory>
    requires named { NamesEach map.old solver.old.leaves }
    requires splice { IsSplice (read_through map.old solver.old.leaves objective_at.old)
        (gone_in gone.now) leaves.now }
    ensures spliced { IfOk result (λ n. IsSplicedInto solver.old map.old objective_at.old
        (gone_in gone.now) leaves.now n solver.new map.new objective_at.new) }
    ensures rest { OnOk result (rest_of map.new ≡ rest_of map.old) }
{
    let variables = set_variables(solver, map, leaves)?;
    let rows = set_rows(alloc, solver, map, leaves)?;
    let objective = change_objective(alloc, solver, map, objective_at, &gone.objective, leaves)?;
    drop_rows(solver, map, &gone.rows);
    drop_variables(solver, map, &gone.variables);
    let set = variables + u128::from(rows) + u128::from(objective);
    Ok(set + gone.rows.len() as u128 + gone.variables.len() as u128)
}
