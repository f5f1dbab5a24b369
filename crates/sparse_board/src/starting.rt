//! Rows of whole numbers at the start.
ghost use Rattle.std.specs.Prelude.{◌≡◌, ◌≢◌, ◌+◌, ◌<◌, ◌≤◌, ◌^◌, ◌+ℤ◌, ℕ, IfSome, IsTrue, length, pos, unsigned_abs};
ghost use Rattle.ratio_core.specs.Rational.{SumFits, one_ℚ, reduce, zero_ℚ, ◌+ℚ◌};
ghost use Rattle.sparse_ratios.specs.Terms.{AreTerms, number_at};
ghost use Rattle.tableau_core.specs.Row.{cell};
ghost use Rattle.whole_rows.specs.Rows.{number_of, numerator_of, width_of};
ghost use Rattle.sparse_board.specs.Starting.{IsNumberLowered, IsNumberPut, owed};

use ratio_core::Ratio;
use whole_rows::{NarrowRow, numerator, over_denominator};

// Puts the numbers of a row into zeros over 1: its entries, each beside its place, of which that of
// the first column is `from`; 1 in column `unit`; and its right side. Tells whether all are whole
// numbers of 64 bits.
pub(crate) fn put_row(
    row: &mut NarrowRow,
    terms: &[(usize, Ratio)],
    from: usize,
    c: usize,
    unit: usize,
    side: &Ratio,
) -> bool
    requires terms { AreTerms from (from + c) terms.now }
    requires past { c ≤ unit }
    requires within { unit < width_of row.old }
    requires den { row.old.den ≡ 1 }
    requires zeros { (j : ℕ) → numerator_of row.old j ≡ pos 0 }
    ensures width { width_of row.new ≡ width_of row.old }
    ensures reals { IsTrue result → (j : ℕ) → j < c
        → number_of row.new j ≡ number_at terms.now (from + j) }
    ensures unit { IsTrue result → number_of row.new unit ≡ one_ℚ }
    ensures others { IsTrue result → (j : ℕ) → c ≤ j → j < width_of row.old → j ≢ unit
        → number_of row.new j ≡ zero_ℚ }
    ensures side { IsTrue result → number_of row.new (width_of row.old) ≡ side.now }
{
    if !put_terms(row, terms, from, c) {
        return false;
    }
    if !put_whole(row, unit, &Ratio::one()) {
        return false;
    }
    let width = row.numbers.len();
    put_whole(row, width, side)
}

// The same of the entries alone.
fn put_terms(row: &mut NarrowRow, terms: &[(usize, Ratio)], from: usize, c: usize) -> bool
    requires terms { AreTerms from (from + c) terms.now }
    requires wide { c ≤ width_of row.old }
    requires den { row.old.den ≡ 1 }
    requires zeros { (j : ℕ) → numerator_of row.old j ≡ pos 0 }
    ensures width { width_of row.new ≡ width_of row.old }
    ensures den { row.new.den ≡ 1 }
    ensures reals { IsTrue result → (j : ℕ) → j < c
        → number_of row.new j ≡ number_at terms.now (from + j) }
    ensures zeros { IsTrue result → (j : ℕ) → c ≤ j → j ≤ width_of row.old
        → number_of row.new j ≡ zero_ℚ }
{
    for term in terms {
        let j = term.0 - from;
        if !put_whole(row, j, &term.1) {
            return false;
        }
    }
    true
}

// Lowers the numbers of a row over 1 by entries, each beside its place, of which that of the first
// column is `from`. Tells whether all are whole numbers of 64 bits, these and what is left.
pub(crate) fn lower_terms(
    row: &mut NarrowRow,
    terms: &[(usize, Ratio)],
    from: usize,
    c: usize,
) -> bool
    requires terms { AreTerms from (from + c) terms.now }
    requires wide { c ≤ width_of row.old }
    requires den { row.old.den ≡ 1 }
    ensures width { width_of row.new ≡ width_of row.old }
    ensures den { row.new.den ≡ 1 }
    ensures reals { IsTrue result → (j : ℕ) → j < c
        → owed row.new j ≡ owed row.old j +ℚ number_at terms.now (from + j) }
    ensures fits { IsTrue result → (j : ℕ) → j < c
        → SumFits (owed row.old j) (number_at terms.now (from + j)) }
    ensures others { IsTrue result → (j : ℕ) → c ≤ j → j ≤ width_of row.old
        → number_of row.new j ≡ number_of row.old j }
{
    for term in terms {
        let j = term.0 - from;
        if !lower_whole(row, j, &term.1) {
            return false;
        }
    }
    true
}

// Lowers a number where it is by a whole one of 64 bits and leaves one.
#[inline]
fn lower_whole(row: &mut NarrowRow, j: usize, value: &Ratio) -> bool
    requires within { j ≤ width_of row.old }
    requires den { row.old.den ≡ 1 }
    ensures width { width_of row.new ≡ width_of row.old }
    ensures den { row.new.den ≡ 1 }
    ensures lowered { IsTrue result → IsNumberLowered j value.now row.old row.new }
{
    let Some(number) = whole(value) else {
        return false;
    };
    let Some(less) = difference(numerator(row, j), number) else {
        return false;
    };
    row.put(j, less);
    true
}

// A number less another, where it is below 2^63 in size.
#[inline]
fn difference(a: i64, b: i64) -> Option<i64>
    ensures { IfSome result (λ less. (less +ℤ b ≡ a) × (unsigned_abs less < 2 ^ 63)) }
{
    let less = a.checked_sub(b)?;
    if less == i64::MIN {
        return None;
    }
    Some(less)
}

// Puts numbers into zeros over 1, where all are whole numbers of 64 bits. Tells whether they are.
pub(crate) fn put_numbers(row: &mut NarrowRow, numbers: &[Ratio]) -> bool
    requires long { length numbers.now ≤ width_of row.old }
    requires den { row.old.den ≡ 1 }
    requires zeros { (j : ℕ) → numerator_of row.old j ≡ pos 0 }
    ensures width { width_of row.new ≡ width_of row.old }
    ensures numbers { IsTrue result → (j : ℕ) → j < length numbers.now
        → number_of row.new j ≡ cell numbers.now j }
    ensures others { IsTrue result → (j : ℕ) → length numbers.now ≤ j → j ≤ width_of row.old
        → number_of row.new j ≡ zero_ℚ }
{
    for j in 0..numbers.len() {
        if !put_any(row, j, &numbers[j]) {
            return false;
        }
    }
    true
}

// Puts a number into a column that is 0, which stays without a mark where the number is 0.
#[inline]
fn put_any(row: &mut NarrowRow, j: usize, value: &Ratio) -> bool
    requires within { j ≤ width_of row.old }
    requires den { row.old.den ≡ 1 }
    requires zero { number_of row.old j ≡ zero_ℚ }
    ensures width { width_of row.new ≡ width_of row.old }
    ensures den { row.new.den ≡ 1 }
    ensures put { IsTrue result → IsNumberPut j value.now row.old row.new }
{
    if value.is_zero() {
        return true;
    }
    put_whole(row, j, value)
}

// Puts a number where it is a whole one of 64 bits.
#[inline]
fn put_whole(row: &mut NarrowRow, j: usize, value: &Ratio) -> bool
    requires within { j ≤ width_of row.old }
    requires den { row.old.den ≡ 1 }
    ensures width { width_of row.new ≡ width_of row.old }
    ensures den { row.new.den ≡ 1 }
    ensures put { IsTrue result → IsNumberPut j value.now row.old row.new }
{
    let Some(number) = whole(value) else {
        return false;
    };
    row.put(j, number);
    true
}

// The number where it is a whole one of 64 bits.
#[inline]
fn whole(value: &Ratio) -> Option<i64>
    ensures { IfSome result (λ n. (reduce n 1 ≡ value.now) × (unsigned_abs n < 2 ^ 63)) }
{
    if value.den() != 1 {
        return None;
    }
    over_denominator(value, 1)
}
