//! Models as tables of rows, each put under the next index of its kind.
use aff_core::{Address, Root};
use lists::Memory;
use ratio_core::Ratio;
use set_core::Set;
use solver_store::{LeafObjective, LeafRow, LeafVar, Sense, SolverAff, SolverModel, SolverVec};
use std::alloc::Global;
use std_form::AddressMap;

/// A function of the free variable x and the nonnegative variable y: their coefficients and the
/// constant, as literals.
pub type Terms = (&'static str, &'static str, &'static str);

#[derive(Clone, Copy)]
pub enum Row {
    AtMost(Terms, &'static str),
    AtLeast(Terms, &'static str),
    /// y is the number.
    Fixes(&'static str),
    /// Both are at least 0.
    Pair(Terms, Terms),
    /// Functions without terms, this many, are 0.
    Zeros(u32),
}

/// Puts two variables and the rows, each at the address of its number.
pub fn fill(
    alloc: Global,
    solver: &mut SolverModel,
    map: &mut AddressMap,
    rows: &[(u32, Row)],
) -> Result<(), Memory> {
    // the other way round than their addresses
    put_var(solver, map, 1, LeafVar::Nonneg)?;
    put_var(solver, map, 0, LeafVar::Free)?;
    for (number, row) in rows {
        put_row(solver, map, *number, made(alloc, row)?)?;
    }
    Ok(())
}

/// Sets the objective, unless there is no memory.
pub fn set_objective(alloc: Global, solver: &mut SolverModel, sense: Sense, terms: &Terms) {
    if let Ok(func) = function(alloc, terms) {
        solver.set_objective(Some(LeafObjective::Affine { sense, func }));
    }
}

fn put_var(
    solver: &mut SolverModel,
    map: &mut AddressMap,
    number: u32,
    var: LeafVar,
) -> Result<(), Memory> {
    let i = solver.add_var(var)?;
    map_var(map, number, i)
}

// An address or an index that is there is left alone, and the model lacks a leaf.
fn map_var(map: &mut AddressMap, number: u32, i: usize) -> Result<(), Memory> {
    let at = Address::root(Root::Variable, number);
    if map.var_index(&at).is_none() && map.var_at(i).is_none() {
        map.put_var(at, i)
    } else {
        Ok(())
    }
}

fn put_row(
    solver: &mut SolverModel,
    map: &mut AddressMap,
    number: u32,
    row: LeafRow,
) -> Result<(), Memory> {
    let i = solver.add_row(row)?;
    map_row(map, number, i)
}

fn map_row(map: &mut AddressMap, number: u32, i: usize) -> Result<(), Memory> {
    let at = Address::root(Root::Row, number);
    if map.row_index(&at).is_none() && map.row_at(i).is_none() {
        map.put_row(at, i)
    } else {
        Ok(())
    }
}

/// The number of a literal.
pub fn number(text: &str) -> Ratio {
    Ratio::read(text.as_bytes()).unwrap_or(Ratio::zero())
}

// x has the index 1, and y the index 0.
fn function(alloc: Global, terms: &Terms) -> Result<SolverAff, Memory> {
    let (x, y, constant) = terms;
    let terms = [(0usize, number(y)), (1usize, number(x))];
    SolverAff::from_terms(alloc, &terms, number(constant))
}

fn made(alloc: Global, row: &Row) -> Result<LeafRow, Memory> {
    match row {
        Row::AtMost(terms, upper) => {
            let upper = number(upper);
            affine(alloc, terms, Set::LessThan { upper })
        }
        Row::AtLeast(terms, lower) => {
            let lower = number(lower);
            affine(alloc, terms, Set::GreaterThan { lower })
        }
        Row::Fixes(value) => Ok(fixes(number(value))),
        Row::Pair(first, second) => pair(alloc, first, second),
        Row::Zeros(count) => zeros(alloc, *count),
    }
}

fn affine(alloc: Global, terms: &Terms, set: Set) -> Result<LeafRow, Memory> {
    let func = function(alloc, terms)?;
    Ok(LeafRow::Affine { func, set })
}

fn fixes(value: Ratio) -> LeafRow {
    let set = Set::EqualTo { value };
    LeafRow::Plain { var: 0, set }
}

fn pair(alloc: Global, first: &Terms, second: &Terms) -> Result<LeafRow, Memory> {
    let mut func = SolverVec::new(alloc);
    push(&mut func, function(alloc, first)?)?;
    push(&mut func, function(alloc, second)?)?;
    let set = Set::Nonnegatives { dimension: 2 };
    Ok(LeafRow::AffineVec { func, set })
}

fn zeros(alloc: Global, count: u32) -> Result<LeafRow, Memory> {
    let mut func = SolverVec::new(alloc);
    push_zeros(alloc, &mut func, count)?;
    let set = Set::Zeros { dimension: count };
    Ok(LeafRow::AffineVec { func, set })
}

fn push_zeros(alloc: Global, func: &mut SolverVec, count: u32) -> Result<(), Memory> {
    for _ in 0..count {
        push(func, SolverAff::from_terms(alloc, &[], Ratio::zero())?)?;
    }
    Ok(())
}

fn push(func: &mut SolverVec, component: SolverAff) -> Result<(), Memory> {
    match func.push(component) {
        Ok(()) => Ok(()),
        Err((_, memory)) => Err(memory),
    }
}
