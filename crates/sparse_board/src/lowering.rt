//! Row operations: each works out a row beside the one that stands.
ghost use Rattle.std.specs.Prelude.{◌≡◌, ◌≢◌, ◌+◌, ◌<◌, ◌≤◌, ◌^◌, ◌↔◌, ℕ, IsTrue, length, slice_index, is_ok, IfOk, OnOk};
ghost use Rattle.ratio_core.specs.Rational.{zero_ℚ, ◌*ℚ◌, ◌-ℚ◌};
ghost use Rattle.simplex_form.specs.Fit.{lowered_fits};
ghost use Rattle.sparse_board.specs.Sparse.{AreColumnsBelow, AreColumnsSplit, AreUnits, number_among};
ghost use Rattle.sparse_board.specs.Numbers.{Copies, CopiesTo, IsReadyAt, number_of, row_columns, width_of};
ghost use Rattle.tableau_core.specs.BoardNumbers.{differences_fit, quotients_fit};
ghost use Rattle.sparse_board.specs.Lowering.{IsMixedLoweredBeside, IsSparseDivided, IsSparseLowered};
ghost use Rattle.sparse_board.specs.Mixed as mixed;

use crate::entry::Entry;
use crate::mixed_row::MixedRow;
use crate::sparse_row::SparseRow;
use crate::step::Step;
use ratio_core::Ratio;
use tableau_core::{BoardOverflow, lowered};

// Makes `next` the row divided.
pub(crate) fn divide(row: &SparseRow, by: &Ratio, next: &mut SparseRow) -> Result<(), BoardOverflow>
    requires nonzero { by.now ≢ zero_ℚ }
    requires width { width_of next.old ≡ width_of row.now }
    ensures width { width_of next.new ≡ width_of next.old }
    ensures fits { is_ok result ≡ quotients_fit (width_of row.now) (number_of row.now) by.now }
    ensures ok { OnOk result (IsSparseDivided by.now row.now next.new) }
{
    next.clear();
    for k in 0..row.entries.len() {
        let entry = &row.entries[k];
        let quotient = entry.value.div(by)?;
        next.push_any(entry.column, quotient);
    }
    Ok(())
}

// Makes `next` the row lowered by a multiple of the step, of which it may have fewer columns.
pub(crate) fn lower_mixed(
    row: &MixedRow,
    by: &Ratio,
    step: &Step,
    next: &mut SparseRow,
) -> Result<(), BoardOverflow>
    requires step_width { mixed.width_of row.now ≤ step.now.width }
    requires both { mixed.IsBoth step.now }
    requires width { width_of next.old ≡ mixed.width_of row.now }
    ensures width { width_of next.new ≡ width_of next.old }
    ensures fits { is_ok result ≡ differences_fit (mixed.width_of row.now)
        (mixed.number_of row.now) by.now (mixed.units_of step.now) }
    ensures ok { OnOk result
        (IsMixedLoweredBeside by.now (mixed.units_of step.now) row.now next.new) }
{
    let width = row.width;
    if row.is_wide && step.is_spread {
        let inner = step.wide.count_below(width as u32);
        return lower(&row.wide, by, &step.wide.entries[..inner], next);
    }
    lower_each(row, by, step, width, next)
}

// The same column by column.
fn lower_each(
    row: &MixedRow,
    by: &Ratio,
    step: &Step,
    width: usize,
    next: &mut SparseRow,
) -> Result<(), BoardOverflow>
    requires few { width < 2 ^ 32 }
    requires width { width_of next.old ≡ width }
    ensures width { width_of next.new ≡ width_of next.old }
    ensures fits { is_ok result ≡ differences_fit width
        (mixed.number_of row.now) by.now (mixed.units_of step.now) }
    ensures numbers { OnOk result ((j : ℕ) → j < width → number_of next.new j
        ≡ mixed.number_of row.now j -ℚ by.now *ℚ mixed.units_of step.now j) }
{
    next.clear();
    for j in 0..width {
        let value = lowered(&row.number(j as u32), by, &step.number(j as u32))?;
        next.push_any(j as u32, value);
    }
    Ok(())
}

// Makes `next` the row lowered by a multiple of the numbers `units`.
pub(crate) fn lower(
    row: &SparseRow,
    by: &Ratio,
    units: &[Entry],
    next: &mut SparseRow,
) -> Result<(), BoardOverflow>
    requires units { AreUnits (width_of row.now) units.now }
    requires few { width_of row.now < 2 ^ 32 }
    requires width { width_of next.old ≡ width_of row.now }
    ensures width { width_of next.new ≡ width_of next.old }
    ensures fits { is_ok result ≡ differences_fit (width_of row.now) (number_of row.now) by.now
        (number_among units.now) }
    ensures ok { OnOk result (IsSparseLowered by.now (number_among units.now) row.now next.new) }
{
    next.clear();
    let mut i = 0;
    for k in 0..units.len() {
        let unit = &units[k];
        i = lower_at(row, i, by, unit.column, &unit.value, next)?;
    }
    copy_below(row, i, u32::MAX, next);
    Ok(())
}

// Merges the row's numbers from the i-th on up to a column, in which the number is lowered. Tells
// how many are merged then.
fn lower_at(
    row: &SparseRow,
    i: usize,
    by: &Ratio,
    column: u32,
    unit: &Ratio,
    next: &mut SparseRow,
) -> Result<usize, BoardOverflow>
    requires ready { IsReadyAt column row.now i next.old }
    requires within { column < width_of row.now }
    requires width { width_of next.old ≡ width_of row.now }
    ensures width { width_of next.new ≡ width_of next.old }
    ensures fits { is_ok result ≡ lowered_fits (number_of row.now column) by.now unit.now }
    ensures split { IfOk result (λ end. AreColumnsSplit (column + 1) end (row_columns row.now)) }
    ensures copied { OnOk result (CopiesTo row.now i column
        (number_of row.now column -ℚ by.now *ℚ unit.now) next.old next.new) }
{
    let end = copy_below(row, i, column, next);
    if stands_at(row, end, column) {
        let value = lowered(&row.entries[end].value, by, unit)?;
        next.push_any(column, value);
        return Ok(end + 1);
    }
    let value = lowered(&Ratio::zero(), by, unit)?;
    next.push_any(column, value);
    Ok(end)
}

// Merges the row's numbers of columns below this one, from the i-th on. Tells how many are merged
// then.
fn copy_below(row: &SparseRow, i: usize, column: u32, next: &mut SparseRow) -> usize
    requires ready { IsReadyAt column row.now i next.old }
    requires width { width_of next.old ≡ width_of row.now }
    ensures width { width_of next.new ≡ width_of next.old }
    ensures split { AreColumnsSplit column result (row_columns row.now) }
    ensures below { AreColumnsBelow column (row_columns next.new) }
    ensures copied { Copies row.now i column next.old next.new }
{
    for end in i..row.entries.len() {
        let next_column = row.entries[end].column;
        if next_column >= column {
            return end;
        }
        next.push(next_column, row.entries[end].value);
    }
    row.entries.len()
}

// Whether the row's number at this place is of the column.
#[inline]
fn stands_at(row: &SparseRow, place: usize, column: u32) -> bool
    ensures { IsTrue result ↔ ((place < length row.now.entries.items)
        × (slice_index (row_columns row.now) place ≡ column)) }
{
    place < row.entries.len() && row.entries[place].column == column
}
