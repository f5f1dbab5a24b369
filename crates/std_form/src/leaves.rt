//! The solver's leaves in the order of their addresses.
ghost use Rattle.std.specs.Prelude.{◌≡◌, ◌++◌, IfOk, OnOk, flat_map, length, map, option_to_list};
ghost use Rattle.std.specs.FinMap as finite;
ghost use Rattle.std.specs.Option.{option_map};
ghost use Rattle.equality_form.specs.Equations.{equations_for};
ghost use Rattle.std_form.specs.Borrowed.{equation_in, row_in};
ghost use Rattle.std_form.specs.Indexed.{equations_in, leaves_at};

use crate::equation::{Equation, Function};
use address_map::AddressMap;
use lists::Memory;
use solver_store::{LeafRow, LeafVar, Set, SolverAff, SolverModel};
use std::alloc::Global;

/// A variable under its index.
pub(crate) type Variable = (usize, LeafVar);

/// A row under its index.
pub(crate) type Row<'a> = (usize, &'a LeafRow);

// The variable at an index, under the index.
fn variable_at(solver: &SolverModel, i: usize) -> Option<Variable>
    ensures { result ≡ option_map (λ var. (i, var)) (finite.get solver.now.leaves.vars i) }
{
    let var = solver.var(i)?;
    Some((i, var))
}

// The row at an index, under the index.
fn row_at<'a>(solver: &'a SolverModel, i: usize) -> Option<Row<'a>>
    ensures { option_map row_in result
        ≡ option_map (λ row. (i, row)) (finite.get solver.now.leaves.rows i) }
{
    let row = solver.row(i)?;
    Some((i, row))
}

// Pushes an item if there is one.
pub(crate) fn push_some<T: Drop>(items: &mut Vec<T>, item: Option<T>) -> Result<(), Memory>
    ensures { OnOk result (items.new.items ≡ items.old.items ++ option_to_list item) }
{
    match item {
        Some(item) => items.push(item)?,
        None => {}
    }
    Ok(())
}

pub(crate) fn variables(
    alloc: Global,
    solver: &SolverModel,
    map: &AddressMap,
) -> Result<Vec<Variable>, Memory>
    ensures { IfOk result (λ variables.
        variables.items ≡ leaves_at map.now.vars.indices solver.now.leaves.vars) }
{
    let mut variables = Vec::with_capacity(alloc, map.var_count())?;
    for entry in map.vars() {
        push_some(&mut variables, variable_at(solver, entry.1))?;
    }
    Ok(variables)
}

pub(crate) fn rows<'a>(
    alloc: Global,
    solver: &'a SolverModel,
    places: &AddressMap,
) -> Result<Vec<Row<'a>>, Memory>
    ensures { IfOk result (λ rows. map row_in rows.items
        ≡ leaves_at places.now.rows.indices solver.now.leaves.rows) }
{
    let mut rows = Vec::with_capacity(alloc, places.row_count())?;
    for entry in places.rows() {
        push_some(&mut rows, row_at(solver, entry.1))?;
    }
    Ok(rows)
}

// How many components a row has.
pub(crate) fn component_count(row: &LeafRow) -> usize
    ensures { result ≡ length (equations_in row.now) }
{
    match row {
        LeafRow::Plain { .. } | LeafRow::Affine { .. } => 1,
        LeafRow::AffineVec { func, .. } => func.len(),
    }
}

// An equation for each component of each row.
pub(crate) fn equations<'a>(alloc: Global, rows: &[Row<'a>]) -> Result<Vec<Equation<'a>>, Memory>
    ensures { IfOk result (λ equations. map equation_in equations.items
        ≡ flat_map (λ row. equations_in row.1) (map row_in rows.now)) }
{
    let mut equations = Vec::with_capacity(alloc, rows.len())?;
    for (_, row) in rows {
        push_equations(&mut equations, row)?;
    }
    Ok(equations)
}

fn push_equations<'a>(equations: &mut Vec<Equation<'a>>, row: &'a LeafRow) -> Result<(), Memory>
    ensures { OnOk result (map equation_in equations.new.items
        ≡ map equation_in equations.old.items ++ equations_in row.now) }
{
    match row {
        LeafRow::Plain { var, set } => {
            let function = Function::Variable(*var);
            equations.push(Equation { function, set })?;
        }
        LeafRow::Affine { func, set } => {
            let function = Function::Affine(func);
            equations.push(Equation { function, set })?;
        }
        LeafRow::AffineVec { func, set } => {
            push_components(equations, func.as_slice(), set)?;
        }
    }
    Ok(())
}

fn push_components<'a>(
    equations: &mut Vec<Equation<'a>>,
    func: &'a [SolverAff],
    set: &'a Set,
) -> Result<(), Memory>
    ensures { OnOk result (map equation_in equations.new.items
        ≡ map equation_in equations.old.items ++ equations_for set.now func.now) }
{
    for component in func {
        let function = Function::Affine(component);
        equations.push(Equation { function, set })?;
    }
    Ok(())
}
