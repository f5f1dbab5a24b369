//! The form that rows of numbers stand for.
ghost use Rattle.std.specs.Prelude.{◌≡◌, ◌+◌, ◌≤◌, IfOk, false, flat_map, map, replicate, take, true};
ghost use Rattle.std.specs.List.{list_all};
ghost use Rattle.bland_run.specs.Forms.{form_from, form_with, is_row, is_shaped, right_of};

use crate::size::Size;
use lists::{Memory, Sequence};
use ratio_core::Ratios;
use simplex_core::{Flags, StdForm};
use sparse_ratios::SparseRatios;
use std::alloc::Global;
use tableau_core::is_negative;

// The form, where the rows are those of one of this size.
pub(crate) fn form_of(alloc: Global, size: Size, rows: &[Ratios]) -> Result<Option<StdForm>, Memory>
    requires { size.m + size.c ≤ 61 }
    ensures { IfOk result (λ form. form ≡ form_from size rows.now) }
{
    if is_shaped(size, rows) {
        Ok(Some(form_with(alloc, size, rows)?))
    } else {
        Ok(None)
    }
}

// As many rows as the size says, each with its right side, and a row of costs.
fn is_shaped(size: Size, rows: &[Ratios]) -> bool
    requires { size.m + size.c ≤ 61 }
    ensures { result ≡ is_shaped size rows.now }
{
    rows.len() == size.m + 1 && are_rows(&rows[..size.m], size.c) && rows[size.m].len() == size.c
}

fn are_rows(rows: &[Ratios], c: usize) -> bool
    requires { c ≤ 61 }
    ensures { result ≡ list_all (is_row c) rows.now }
{
    rows.iter().all(|row| is_row(row, c))
}

// A row has a number for each column, and then a right side, which isn't below 0.
fn is_row(row: &Ratios, c: usize) -> bool
    requires { c ≤ 61 }
    ensures { result ≡ is_row c row.now }
{
    let row = row.as_slice();
    row.len() == c + 1 && !is_negative(&row[c])
}

fn form_with(alloc: Global, size: Size, rows: &[Ratios]) -> Result<StdForm, Memory>
    requires small { size.m + size.c ≤ 61 }
    requires shaped { is_shaped size rows.now ≡ true }
    ensures { IfOk result (λ form. form ≡ form_with size rows.now) }
{
    let front = &rows[..size.m];
    let matrix = matrix_in(alloc, front, size.c)?;
    let right = right_in(alloc, front, size.c)?;
    let costs = Vec::from_slice(alloc, rows[size.m].as_slice())?;
    let flips = no_flips(alloc, size.m)?;
    Ok(StdForm {
        m: size.m,
        c: size.c,
        matrix,
        right,
        costs: Sequence::from_vec(costs),
        flips,
    })
}

// The first c numbers of each row.
fn matrix_in(alloc: Global, rows: &[Ratios], c: usize) -> Result<SparseRatios, Memory>
    requires { list_all (is_row c) rows.now ≡ true }
    ensures { IfOk result (λ matrix. matrix ≡ flat_map (take c) rows.now) }
{
    let mut numbers = Vec::new(alloc);
    for row in rows {
        numbers.extend_from_slice(&row.as_slice()[..c])?;
    }
    SparseRatios::from_slice(alloc, &numbers)
}

// The last number of each row.
fn right_in(alloc: Global, rows: &[Ratios], c: usize) -> Result<Ratios, Memory>
    requires { list_all (is_row c) rows.now ≡ true }
    ensures { IfOk result (λ right. right ≡ map (right_of c) rows.now) }
{
    let mut right = Vec::with_capacity(alloc, rows.len())?;
    for row in rows {
        right.push(row.as_slice()[c])?;
    }
    Ok(Sequence::from_vec(right))
}

fn no_flips(alloc: Global, m: usize) -> Result<Flags, Memory>
    ensures { IfOk result (λ flips. flips ≡ replicate m false) }
{
    Ok(Sequence::from_vec(vec![in alloc; false; m]?))
}
