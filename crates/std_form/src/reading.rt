//! Answers of the equality form as answers of the solver's model.
ghost use Rattle.std.specs.Prelude.{◌≡◌, IfOk, IsErrOf, OkIff, OnOk, drop, map};
ghost use Rattle.std.specs.FinMap as finite;
ghost use Rattle.equality_form.specs.ReadBack.{LeafValueFits, ValuesFit, after, unflipped, value_in};
ghost use Rattle.tableau_core.specs.Row.{cell};
ghost use Rattle.std_form.specs.Answers.{dual_lists, points};
ghost use Rattle.std_form.specs.Borrowed.{row_in};
ghost use Rattle.std_form.specs.ToldLaws.{TellsBy};

use crate::leaves::{Row, Variable, component_count};
use crate::numbers::flipped;
use lists::{Memory, Sequence};
use ratio_core::{NumberFault, Ratio, RatioFault, Ratios};
use simplex_core::{SolverAnswer, StdForm};
use solver_store::{ByIndex, LeafAnswer, LeafDuals, LeafPoint, LeafVar};
use std::alloc::Global;

/// What the variables and rows are answered.
pub(crate) fn read_by_index(
    alloc: Global,
    variables: &[Variable],
    rows: &[Row],
    form: &StdForm,
    a: &SolverAnswer,
) -> Result<LeafAnswer, NumberFault>
    ensures { TellsBy variables.now (map row_in rows.now) form.now.flips a.now result }
{
    let flips = form.flips.as_slice();
    match a {
        SolverAnswer::Optimal { x, y, .. } => {
            let x = point(alloc, variables, x.as_slice())?;
            let y = duals(alloc, rows, flips, y.as_slice())?;
            Ok(LeafAnswer::Optimal { x, y })
        }
        SolverAnswer::Infeasible { y, .. } => {
            let y = duals(alloc, rows, flips, y.as_slice())?;
            Ok(LeafAnswer::Infeasible { y })
        }
        SolverAnswer::Unbounded { x, d, .. } => {
            let x = point(alloc, variables, x.as_slice())?;
            let d = point(alloc, variables, d.as_slice())?;
            Ok(LeafAnswer::Unbounded { x, d })
        }
    }
}

// The first number, which is 0 where there is none, and the others.
fn first(numbers: &[Ratio]) -> (Ratio, &[Ratio])
    ensures number { result.0 ≡ cell numbers.now 0 }
    ensures others { result.1.now ≡ drop 1 numbers.now }
{
    match numbers {
        [] => (Ratio::zero(), numbers),
        [number, others @ ..] => (*number, others),
    }
}

// The value of a variable whose columns are the first ones.
fn value(var: LeafVar, x: &[Ratio]) -> Result<Ratio, RatioFault>
    ensures { OkIff result (LeafValueFits var x.now) (value_in var x.now) }
{
    let (plus, others) = first(x);
    match var {
        LeafVar::Nonneg => Ok(plus),
        LeafVar::Free => plus.sub(&first(others).0),
    }
}

// The numbers of the other columns.
fn after(var: LeafVar, x: &[Ratio]) -> &[Ratio]
    ensures { result.now ≡ after var x.now }
{
    let others = first(x).1;
    match var {
        LeafVar::Nonneg => others,
        LeafVar::Free => first(others).1,
    }
}

// Each variable's value, under its index.
fn values(
    alloc: Global,
    variables: &[Variable],
    x: &[Ratio],
) -> Result<Vec<(usize, Ratio)>, NumberFault>
    ensures values { IfOk result (λ values. values.items ≡ points variables.now x.now) }
    ensures fit { OnOk result (ValuesFit variables.now x.now) }
    ensures overflow { IsErrOf result NumberFault.Overflow → ¬ ValuesFit variables.now x.now }
{
    let mut values = Vec::with_capacity(alloc, variables.len())?;
    let mut left = x;
    for (i, var) in variables {
        values.push((*i, value(*var, left)?))?;
        left = after(*var, left);
    }
    Ok(values)
}

fn point(alloc: Global, variables: &[Variable], x: &[Ratio]) -> Result<LeafPoint, NumberFault>
    ensures values { IfOk result (λ point.
        point ≡ finite.from_entries (points variables.now x.now)) }
    ensures fit { OnOk result (ValuesFit variables.now x.now) }
    ensures overflow { IsErrOf result NumberFault.Overflow → ¬ ValuesFit variables.now x.now }
{
    Ok(by_index(alloc, values(alloc, variables, x)?)?)
}

// The multipliers of the equations as they were before some were flipped.
fn unflipped(alloc: Global, flips: &[bool], y: &[Ratio]) -> Result<Vec<Ratio>, Memory>
    ensures { IfOk result (λ multipliers. multipliers.items ≡ unflipped flips.now y.now) }
{
    let mut multipliers = Vec::with_capacity(alloc, flips.len())?;
    let mut left = y;
    for is_flipped in flips {
        let (number, others) = first(left);
        multipliers.push(flipped(*is_flipped, number))?;
        left = others;
    }
    Ok(multipliers)
}

// Each row's multipliers, under its index.
fn dual_entries(
    alloc: Global,
    rows: &[Row],
    multipliers: &[Ratio],
) -> Result<Vec<(usize, Ratios)>, Memory>
    ensures { IfOk result (λ entries. entries.items
        ≡ dual_lists (map row_in rows.now) multipliers.now) }
{
    let mut entries = Vec::with_capacity(alloc, rows.len())?;
    let mut left = multipliers;
    for (i, row) in rows {
        let (own, others) = left.split_at(component_count(row).min(left.len()));
        entries.push((*i, Sequence::from_vec(Vec::from_slice(alloc, own)?)))?;
        left = others;
    }
    Ok(entries)
}

fn duals(alloc: Global, rows: &[Row], flips: &[bool], y: &[Ratio]) -> Result<LeafDuals, Memory>
    ensures { IfOk result (λ duals. duals ≡ finite.from_entries
        (dual_lists (map row_in rows.now) (unflipped flips.now y.now))) }
{
    let multipliers = unflipped(alloc, flips, y)?;
    by_index(alloc, dual_entries(alloc, rows, &multipliers)?)
}

// The map of entries, where the first of each index counts.
fn by_index<V: Drop>(alloc: Global, entries: Vec<(usize, V)>) -> Result<ByIndex<V>, Memory>
    ensures { IfOk result (λ values. values ≡ finite.from_entries entries.items) }
{
    let mut entries = entries;
    let mut values = ByIndex::new(alloc);
    while let Some((i, value)) = entries.pop() {
        let Ok(_before) = values.put(i, value) else {
            return Err(Memory);
        };
    }
    Ok(values)
}
