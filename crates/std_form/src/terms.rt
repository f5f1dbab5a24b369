//! The matrix, of which only the numbers that aren't 0 are written. They are gathered by variable,
//! and from there by equation: so those of an equation come in the order of their columns, and
//! nothing is sorted or looked up.
ghost use Rattle.std.specs.Prelude.{◌≡◌, ◌+◌, ◌<◌, ◌≤◌, ℕ, Bool, [], IfOk, OnOk, flat_map, length, map, slice_index_or};
ghost use Rattle.sparse_ratios.specs.Terms.{number_at};
ghost use Rattle.sparse_lists.specs.Across.{ArePutAcross, GrowBy, PlacesRise, list_at, padded};
ghost use Rattle.aff_core.specs.Function.{coefficient};
ghost use Rattle.equality_form.specs.Columns.{parts_among, signs, slack_at, slacks_from};
ghost use Rattle.equality_form.specs.EqualityForm.{cells_from, unit_at};
ghost use Rattle.equality_form.specs.Equations.{flipped, is_flipped, slack_of};
ghost use Rattle.std_form.specs.Borrowed.{equation_in, function_in};
ghost use Rattle.std_form.specs.Gathered.{AreColumns, cells_at};
ghost use Rattle.std_form.specs.Indexed.{SolverEquation};

use crate::equation::{Equation, Function, slack_of};
use crate::leaves::Variable;
use crate::numbers::flipped;
use lists::Memory;
use ratio_core::Ratio;
use solver_store::{LeafVar, Set};
use sparse_lists::{joined, none, put_across};
use sparse_ratios::SparseRatios;
use std::alloc::Global;

/// The matrix row by row.
pub(crate) fn matrix(
    alloc: Global,
    variables: &[Variable],
    equations: &[Equation],
    flips: &[bool],
) -> Result<SparseRatios, Memory>
    requires { flips.now ≡ map is_flipped (map equation_in equations.now) }
    ensures { IfOk result (λ matrix. let es = map equation_in equations.now in
        matrix ≡ cells_from (parts_among variables.now) (slacks_from 0 es) 0 es) }
{
    let end = index_end(variables)?;
    let columns = columns(alloc, end, equations, flips)?;
    let mut rows = none(alloc, equations.len())?;
    let width = put_rows(&mut rows, variables, &columns, equations, flips)?;
    joined(alloc, &rows, width)
}

// Puts each equation's numbers into its row, and tells how many columns there are.
fn put_rows(
    rows: &mut [SparseRatios],
    variables: &[Variable],
    columns: &[SparseRatios],
    equations: &[Equation],
    flips: &[bool],
) -> Result<usize, Memory>
    requires empty { (b : ℕ) → list_at rows.old b ≡ [] }
    requires count { length rows.old ≡ length equations.now }
    requires columns { AreColumns (map equation_in equations.now) columns.now }
    requires indices { (k : ℕ) (d : ℕ × LeafVar) → k < length variables.now
        → (slice_index_or variables.now k d).0 < length columns.now }
    requires flips { flips.now ≡ map is_flipped (map equation_in equations.now) }
    ensures rows { let es = map equation_in equations.now in IfOk result (λ width.
        flat_map (padded width) rows.new
        ≡ cells_from (parts_among variables.now) (slacks_from 0 es) 0 es) }
    ensures low { IfOk result (λ width. (b : ℕ) → length (list_at rows.new b) ≤ width) }
{
    let parts = put_variables(rows, variables, columns)?;
    let width = put_slacks(rows, parts, equations, flips)?;
    Ok(width)
}

// The number after this one.
fn next(place: usize) -> Result<usize, Memory>
    ensures { IfOk result (λ next. next ≡ place + 1) }
{
    match place.checked_add(1) {
        Some(next) => Ok(next),
        None => Err(Memory),
    }
}

// A number past the variables' indices.
fn index_end(variables: &[Variable]) -> Result<usize, Memory>
    ensures { IfOk result (λ end. (k : ℕ) (d : ℕ × LeafVar) → k < length variables.now
        → (slice_index_or variables.now k d).0 < end) }
{
    let mut end = 0;
    for (i, _) in variables {
        end = later(end, *i)?;
    }
    Ok(end)
}

// The end, or else a number past an index that isn't below it.
fn later(end: usize, i: usize) -> Result<usize, Memory>
    ensures keeps { IfOk result (λ later. end ≤ later) }
    ensures past { IfOk result (λ later. i < later) }
{
    if i < end { Ok(end) } else { next(i) }
}

// For each index the equations that have it, each with the index's coefficient there.
fn columns(
    alloc: Global,
    count: usize,
    equations: &[Equation],
    flips: &[bool],
) -> Result<Vec<SparseRatios>, Memory>
    requires { flips.now ≡ map is_flipped (map equation_in equations.now) }
    ensures count { IfOk result (λ columns. length columns.items ≡ count) }
    ensures columns { IfOk result (λ columns.
        AreColumns (map equation_in equations.now) columns.items) }
{
    let mut columns = none(alloc, count)?;
    for (i, equation) in equations.iter().enumerate() {
        put_function(&mut columns, i, flips[i], &equation.function)?;
    }
    Ok(columns)
}

// Puts a function's coefficients at a place of the lists of their indices.
fn put_function(
    columns: &mut [SparseRatios],
    place: usize,
    negated: bool,
    function: &Function,
) -> Result<(), Memory>
    requires low { (b : ℕ) → length (list_at columns.old b) ≤ place }
    ensures { OnOk result (ArePutAcross place
        (λ b. flipped negated (coefficient (function_in function.now) b))
        columns.old columns.new) }
{
    match function {
        Function::Zero => put_across(columns, place, negated, &[]),
        Function::Variable(var) => put_across(columns, place, negated, &[(*var, Ratio::one())]),
        Function::Affine(f) => put_across(columns, place, negated, f.terms()),
    }
}

// Puts the variables' coefficients at their columns, and tells how many columns there are.
fn put_variables(
    rows: &mut [SparseRatios],
    variables: &[Variable],
    columns: &[SparseRatios],
) -> Result<usize, Memory>
    requires low { (b : ℕ) → length (list_at rows.old b) ≤ 0 }
    requires indices { (k : ℕ) (d : ℕ × LeafVar) → k < length variables.now
        → (slice_index_or variables.now k d).0 < length columns.now }
    ensures { IfOk result (λ width. GrowBy 0 width
        (λ b. flat_map (cells_at columns.now b) variables.now) rows.old rows.new) }
{
    let mut place = 0;
    for (i, var) in variables {
        place = put_variable(rows, place, *var, columns[*i].terms())?;
    }
    Ok(place)
}

// Puts a variable's coefficients at its columns, the first of which is at the place, and tells the
// place after them. Each term names an equation.
fn put_variable(
    rows: &mut [SparseRatios],
    place: usize,
    var: LeafVar,
    terms: &[(usize, Ratio)],
) -> Result<usize, Memory>
    requires rise { PlacesRise terms.now }
    requires low { (b : ℕ) → length (list_at rows.old b) ≤ place }
    ensures { IfOk result (λ next. GrowBy place next
        (λ b. map (λ negated. flipped negated (number_at terms.now b)) (signs var))
        rows.old rows.new) }
{
    put_across(rows, place, false, terms)?;
    let after = next(place)?;
    match var {
        LeafVar::Nonneg => Ok(after),
        LeafVar::Free => {
            put_across(rows, after, true, terms)?;
            next(after)
        }
    }
}

// Puts the equations' slacks behind the variables' columns, and tells how many columns there are.
fn put_slacks(
    rows: &mut [SparseRatios],
    parts: usize,
    equations: &[Equation],
    flips: &[bool],
) -> Result<usize, Memory>
    requires flips { flips.now ≡ map is_flipped (map equation_in equations.now) }
    requires low { (b : ℕ) → length (list_at rows.old b) ≤ parts }
    ensures grown { let es = map equation_in equations.now in IfOk result (λ width.
        (flip : ℕ → Bool) → ((i : ℕ) (d : SolverEquation) → i < length es
        → flip i ≡ is_flipped (slice_index_or es i d))
        → GrowBy parts width (λ b. map (flipped (flip b)) (unit_at (slacks_from 0 es) b))
        rows.old rows.new) }
    ensures low { IfOk result (λ width. (b : ℕ) → length (list_at rows.new b) ≤ width) }
{
    let mut place = parts;
    for (i, equation) in equations.iter().enumerate() {
        place = put_slack(rows, place, i, flips[i], equation.set)?;
    }
    Ok(place)
}

// Puts the slack of equation i at the place, where it has one.
fn put_slack(
    rows: &mut [SparseRatios],
    place: usize,
    i: usize,
    negated: bool,
    set: &Set,
) -> Result<usize, Memory>
    requires low { (b : ℕ) → length (list_at rows.old b) ≤ place }
    ensures { IfOk result (λ next. (flip : ℕ → Bool) → flip i ≡ negated
        → GrowBy place next (λ b. map (flipped (flip b)) (unit_at (slack_at i (slack_of set.now)) b))
        rows.old rows.new) }
{
    let Some(taken_off) = slack_of(set) else {
        return Ok(place);
    };
    let number = flipped(taken_off, Ratio::one());
    put_across(rows, place, negated, &[(i, number)])?;
    next(place)
}
