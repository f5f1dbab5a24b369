//! What a row of whole numbers stands for, as fractions. None of it fails.
ghost use Rattle.std.specs.Prelude.{◌≡◌, ◌+◌, ◌<◌, ◌≤◌, ◌^◌, ◌*ℤ◌, pos, ℕ, length, unsigned_abs};
ghost use Rattle.ratio_core.specs.Rational.{Fits, reduce, ◌*ℚ◌, ◌-ℚ◌};
ghost use Rattle.whole_rows.specs.Over.{lowered_num};
ghost use Rattle.whole_rows.specs.Rows.{number_of, numerator_of};

use crate::narrow_row::NarrowRow;
use ratio_core::Ratio;

// In lowest terms. It fits.
#[inline]
fn fraction_of(num: i128, den: u128) -> Ratio
    requires positive { 0 < den }
    requires num { unsigned_abs num < 2 ^ 127 }
    requires den { den < 2 ^ 127 }
    ensures { result ≡ reduce num den }
{
    match Ratio::new(num, den as i128) {
        Ok(value) => value,
        Err(_) => unreachable!(),
    }
}

/// The numerator of column j; that of the right side stands behind the columns.
#[inline]
pub fn numerator(row: &NarrowRow, j: usize) -> i64
    ensures { result ≡ numerator_of row.now j }
{
    if j < row.numbers.len() {
        return row.numbers[j];
    }
    row.side
}

/// The row's number of column j; behind the columns stands the right side.
pub fn number(row: &NarrowRow, j: usize) -> Ratio
    ensures { result ≡ number_of row.now j }
{
    let num = numerator(row, j);
    if num == 0 {
        return Ratio::zero();
    }
    fraction_of(num as i128, row.den as u128)
}

/// The row's number of column j, lowered by its number of column q times the step's: neither the
/// product nor the difference can pass 128 bits.
pub fn lowered_number(row: &NarrowRow, step: &NarrowRow, q: usize, j: usize) -> Ratio
    ensures { result ≡ number_of row.now j -ℚ number_of row.now q *ℚ number_of step.now j }
{
    let num = lowered_long(
        numerator(row, j),
        step.den,
        numerator(row, q),
        numerator(step, j),
    );
    fraction_of(num, row.den as u128 * step.den as u128)
}

// A numerator lowered, in 128 bits.
#[inline]
pub(crate) fn lowered_long(number: i64, over: u64, by: i64, unit: i64) -> i128
    requires { over < 2 ^ 63 }
    ensures value { result ≡ lowered_num number over by unit }
    ensures fits { unsigned_abs result < 2 ^ 127 }
{
    scaled(number, over) - product(by, unit)
}

// Signed numbers are multiplied by one instruction.
#[inline]
pub(crate) fn scaled(a: i64, by: u64) -> i128
    requires { by < 2 ^ 63 }
    ensures value { result ≡ a *ℤ pos by }
    ensures fits { unsigned_abs result < 2 ^ 126 }
{
    a as i128 * (by as i64) as i128
}

#[inline]
pub(crate) fn product(a: i64, b: i64) -> i128
    ensures value { result ≡ a *ℤ b }
    ensures fits { unsigned_abs result ≤ 2 ^ 126 }
{
    a as i128 * b as i128
}
