//! Signs and ratios by numerators: in a row the denominator of the right side is that of the entry,
//! so a ratio asks for no division.
ghost use Rattle.std.specs.Prelude.{◌≡◌, ◌<◌, ◌<ℤ◌, ◌*ℤ◌, IsTrue, not, pos};
ghost use Rattle.std.specs.Ordering.{int_cmp};
ghost use Rattle.ratio_core.specs.Rational.{rational_eq, zero_ℚ, ◌/ℚ◌};
ghost use Rattle.simplex_form.specs.Turns.{is_below};
ghost use Rattle.whole_rows.specs.Rows.{number_of, numerator_of, width_of};
ghost use Rattle.tableau_core.specs.Leaving.{comes_before};

use crate::narrow_row::NarrowRow;
use crate::widening::numerator;
use std::cmp::Ordering;

// The order of `side / by` and `other / over`.
#[inline]
fn cmp_ratios(side: i64, by: i64, other: i64, over: i64) -> Ordering
    ensures { result ≡ int_cmp (side *ℤ over) (other *ℤ by) }
{
    let left = product(side, over);
    let right = product(other, by);
    left.cmp(&right)
}

#[inline]
fn product(a: i64, b: i64) -> i128
    ensures { result ≡ a *ℤ b }
{
    a as i128 * b as i128
}

/// Whether the row's number of column j is below 0.
#[inline]
pub fn is_negative_at(row: &NarrowRow, j: usize) -> bool
    ensures { result ≡ is_below (number_of row.now j) zero_ℚ }
{
    numerator(row, j) < 0
}

/// Whether the row's number of column j isn't 0.
#[inline]
pub fn is_nonzero_at(row: &NarrowRow, j: usize) -> bool
    ensures { result ≡ not (rational_eq (number_of row.now j) zero_ℚ) }
{
    numerator(row, j) != 0
}

/// Whether the row's entry of column q is above 0.
#[inline]
pub fn has_positive(row: &NarrowRow, q: usize) -> bool
    requires column { q < width_of row.now }
    ensures value { result ≡ is_below zero_ℚ (number_of row.now q) }
    ensures above { IsTrue result → pos 0 <ℤ numerator_of row.now q }
{
    row.numbers[q] > 0
}

/// Whether the row's entry of column q is below 0.
#[inline]
pub fn has_negative(row: &NarrowRow, q: usize) -> bool
    requires { q < width_of row.now }
    ensures { result ≡ is_below (number_of row.now q) zero_ℚ }
{
    row.numbers[q] < 0
}

/// Whether a row leaves before another, where of equal ratios it does if its basic column is lower.
pub fn is_before(row: &NarrowRow, other: &NarrowRow, q: usize, is_lower: bool) -> bool
    requires column { q < width_of row.now }
    requires other_column { q < width_of other.now }
    requires above { pos 0 <ℤ numerator_of row.now q }
    requires other_above { pos 0 <ℤ numerator_of other.now q }
    ensures { result ≡ comes_before
        (number_of row.now (width_of row.now) /ℚ number_of row.now q)
        (number_of other.now (width_of other.now) /ℚ number_of other.now q) is_lower }
{
    match cmp_ratios(row.side, row.numbers[q], other.side, other.numbers[q]) {
        Ordering::Less => true,
        Ordering::Equal => is_lower,
        Ordering::Greater => false,
    }
}
