//! What the rule looks for among a row's real columns.
ghost use Rattle.std.specs.Prelude.{◌≡◌, ◌<◌, ◌≤◌, not, IfSome};
ghost use Rattle.ratio_core.specs.Rational.{rational_eq, zero_ℚ};
ghost use Rattle.simplex_form.specs.Search.{least_below};
ghost use Rattle.simplex_form.specs.Turns.{is_below};
ghost use Rattle.sparse_board.specs.Mixed as mixed;
ghost use Rattle.sparse_board.specs.Numbers.{number_of};
ghost use Rattle.whole_rows.specs.Rows as whole;

use crate::mixed_row::MixedRow;
use crate::sparse_row::SparseRow;
use tableau_core::is_negative;
use whole_rows::{NarrowRow, has_negative, is_negative_at, is_nonzero_at};

// The first of this number of columns whose number is below 0.
pub(crate) fn first_negative(row: &MixedRow, count: usize) -> Option<usize>
    ensures value { result
        ≡ least_below count (λ j. is_below (mixed.number_of row.now j) zero_ℚ) }
    ensures within { IfSome result (λ j. j < count) }
{
    if row.is_wide {
        negative_entry(&row.wide, count)
    } else if count <= row.narrow.numbers.len() {
        negative_number(&row.narrow, count)
    } else {
        negative_numerator(&row.narrow, count)
    }
}

// A row has these columns mostly: then each number is read, and nothing else is asked.
fn negative_number(row: &NarrowRow, count: usize) -> Option<usize>
    requires { count ≤ whole.width_of row.now }
    ensures value { result
        ≡ least_below count (λ j. is_below (whole.number_of row.now j) zero_ℚ) }
    ensures within { IfSome result (λ j. j < count) }
{
    for j in 0..count {
        if has_negative(row, j) {
            return Some(j);
        }
    }
    None
}

fn negative_numerator(row: &NarrowRow, count: usize) -> Option<usize>
    ensures value { result
        ≡ least_below count (λ j. is_below (whole.number_of row.now j) zero_ℚ) }
    ensures within { IfSome result (λ j. j < count) }
{
    for j in 0..count {
        if is_negative_at(row, j) {
            return Some(j);
        }
    }
    None
}

fn negative_entry(row: &SparseRow, count: usize) -> Option<usize>
    ensures value { result ≡ least_below count (λ j. is_below (number_of row.now j) zero_ℚ) }
    ensures within { IfSome result (λ j. j < count) }
{
    for k in 0..row.entries.len() {
        let column = row.entries[k].column as usize;
        if column >= count {
            return None;
        }
        if is_negative(&row.entries[k].value) {
            return Some(column);
        }
    }
    None
}

// The first of this number of columns whose number isn't 0.
pub(crate) fn first_nonzero(row: &MixedRow, count: usize) -> Option<usize>
    ensures value { result
        ≡ least_below count (λ j. not (rational_eq (mixed.number_of row.now j) zero_ℚ)) }
    ensures within { IfSome result (λ j. (j < count) × ¬ (mixed.number_of row.now j ≡ zero_ℚ)) }
{
    if row.is_wide {
        nonzero_entry(&row.wide, count)
    } else {
        nonzero_numerator(&row.narrow, count)
    }
}

fn nonzero_numerator(row: &NarrowRow, count: usize) -> Option<usize>
    ensures value { result
        ≡ least_below count (λ j. not (rational_eq (whole.number_of row.now j) zero_ℚ)) }
    ensures within { IfSome result (λ j. (j < count) × ¬ (whole.number_of row.now j ≡ zero_ℚ)) }
{
    for j in 0..count {
        if is_nonzero_at(row, j) {
            return Some(j);
        }
    }
    None
}

fn nonzero_entry(row: &SparseRow, count: usize) -> Option<usize>
    ensures value { result
        ≡ least_below count (λ j. not (rational_eq (number_of row.now j) zero_ℚ)) }
    ensures within { IfSome result (λ j. (j < count) × ¬ (number_of row.now j ≡ zero_ℚ)) }
{
    if row.entries.is_empty() {
        return None;
    }
    let column = row.entries[0].column as usize;
    if column < count { Some(column) } else { None }
}
