//! A list of numerators that is divided by what divides all.
ghost use Rattle.std.specs.Prelude.{◌≡◌, ◌≢◌, ◌<◌, ◌≤◌, ◌^◌, ℕ, ◌*ℤ◌, IsTrue, length, pos, slice_index_or, unsigned_abs};
ghost use Rattle.std.specs.Int.{◌∣◌};
ghost use Rattle.ratio_core.specs.Gcd.{gcd};
ghost use Rattle.ratio_core.specs.Rational.{signed};
ghost use Rattle.std.specs.Int.{is_negative};
ghost use Rattle.whole_rows.specs.Listed.{ListsNonzeros};
ghost use Rattle.whole_rows.specs.Numerators.{AreDivided, AreSized, DividesAll, IsMeasure};

use crate::arithmetic::common_divisor;
use crate::plan::Measure;
use crate::quotients::inverse_of;
use crate::widening::product;

// A row's bound below it is good enough when the row is divided: its greatest numerator isn't sought.
const SMALL: u64 = 1024;

// What divides a size, the right side and each numerator of the listed columns, and what none of these
// passes, as none passes the bound.
pub(crate) fn measured(
    numbers: &[i64],
    columns: &[u32],
    side: i64,
    size: u64,
    bound: u64,
) -> Measure
    requires positive { 0 < size }
    requires bound { bound < 2 ^ 63 }
    requires side { unsigned_abs side ≤ bound }
    requires lists { ListsNonzeros columns.now numbers.now }
    requires within { (j : ℕ) → unsigned_abs (slice_index_or numbers.now j (pos 0)) ≤ bound }
    ensures { IsMeasure numbers.now (length numbers.now) side size result }
{
    let part = side.unsigned_abs();
    let greatest = greatest_within(numbers, columns, part, bound);
    let common = common_of(numbers, columns, joined(part, size));
    Measure { common, greatest }
}

// A size that none of these numerators passes, nor the given one: the bound, where it is small.
#[inline]
fn greatest_within(numbers: &[i64], columns: &[u32], size: u64, bound: u64) -> u64
    requires bound { bound < 2 ^ 63 }
    requires size { size ≤ bound }
    requires lists { ListsNonzeros columns.now numbers.now }
    requires within { (j : ℕ) → unsigned_abs (slice_index_or numbers.now j (pos 0)) ≤ bound }
    ensures { AreSized numbers.now (length numbers.now) size result }
{
    if bound < SMALL {
        return bound;
    }
    greatest_of(numbers, columns, size)
}

// A size that none of these numerators passes, nor the given one.
fn greatest_of(numbers: &[i64], columns: &[u32], size: u64) -> u64
    requires size { size < 2 ^ 63 }
    requires lists { ListsNonzeros columns.now numbers.now }
    requires small { (j : ℕ) → unsigned_abs (slice_index_or numbers.now j (pos 0)) < 2 ^ 63 }
    ensures { AreSized numbers.now (length numbers.now) size result }
{
    let mut greatest = size;
    for k in 0..columns.len() {
        greatest = greater(numbers[columns[k] as usize].unsigned_abs(), greatest);
    }
    greatest
}

// What divides a size and the numerators. Mostly it is 1 soon.
fn common_of(numbers: &[i64], columns: &[u32], size: u64) -> u64
    requires above { 0 < size }
    requires lists { ListsNonzeros columns.now numbers.now }
    ensures { DividesAll numbers.now (length numbers.now) size result }
{
    let mut common = size;
    for k in 0..columns.len() {
        if common == 1 {
            return 1;
        }
        common = common_divisor(numbers[columns[k] as usize].unsigned_abs(), common);
    }
    common
}

// Mostly there is nothing left to divide by.
#[inline]
fn joined(part: u64, common: u64) -> u64
    requires { 0 < common }
    ensures value { result ≡ gcd part common }
    ensures positive { 0 < result }
{
    if common == 1 {
        return 1;
    }
    common_divisor(part, common)
}

// The greater one.
#[inline]
pub(crate) fn greater(a: u64, b: u64) -> u64
    ensures left { a ≤ result }
    ensures right { b ≤ result }
    ensures small { a < 2 ^ 63 → b < 2 ^ 63 → result < 2 ^ 63 }
{
    if a < b { b } else { a }
}

// The common divisor with the entry's sign.
#[inline]
pub(crate) fn with_sign(entry: i64, common: u64) -> i64
    requires { common < 2 ^ 63 }
    ensures { result ≡ signed (is_negative entry) common }
{
    if entry < 0 {
        -(common as i64)
    } else {
        common as i64
    }
}

// The numerator of which `a` is a multiple. Mostly it is taken once, or turned.
#[inline]
pub(crate) fn quotient(a: i64, by: i64) -> i64
    requires nonzero { by ≢ pos 0 }
    requires exact { unsigned_abs by ∣ unsigned_abs a }
    requires small { unsigned_abs a < 2 ^ 63 }
    ensures { a ≡ result *ℤ by }
{
    if by == 1 {
        return a;
    }
    if by == -1 {
        return -a;
    }
    a / by
}

// Divides each number, in place. Those that aren't 0 are of the listed columns.
pub(crate) fn divide_numbers(numbers: &mut [i64], columns: &[u32], by: i64)
    requires lists { ListsNonzeros columns.now numbers.old }
    requires nonzero { by ≢ pos 0 }
    requires exact { (j : ℕ) → unsigned_abs by ∣ unsigned_abs (slice_index_or numbers.old j (pos 0)) }
    requires small { (j : ℕ) → unsigned_abs (slice_index_or numbers.old j (pos 0)) < 2 ^ 63 }
    ensures { AreDivided by (length numbers.old) numbers.old numbers.new }
{
    if by == 1 {
        return;
    }
    let inverse = signed_inverse(by);
    for k in 0..columns.len() {
        let j = columns[k] as usize;
        numbers[j] = listed_quotient(numbers[j], by, inverse);
    }
}

// The inverse modulo 2^64 of the odd part of a number, with the number's sign.
fn signed_inverse(by: i64) -> i64 {
    let inverse = inverse_of(by.unsigned_abs()).cast_signed();
    if by < 0 {
        inverse.wrapping_neg()
    } else {
        inverse
    }
}

// The numerator of which `a` is a multiple, by the inverse of the divisor: the product is tested, so
// nothing rests on the inverse.
#[inline]
fn listed_quotient(a: i64, by: i64, inverse: i64) -> i64
    requires nonzero { by ≢ pos 0 }
    requires exact { unsigned_abs by ∣ unsigned_abs a }
    requires small { unsigned_abs a < 2 ^ 63 }
    ensures { a ≡ result *ℤ by }
{
    let guess = a
        .wrapping_shr(by.trailing_zeros() % 64)
        .wrapping_mul(inverse);
    if is_product(guess, by, a) {
        return guess;
    }
    quotient(a, by)
}

#[inline]
fn is_product(guess: i64, by: i64, a: i64) -> bool
    ensures { IsTrue result → a ≡ guess *ℤ by }
{
    product(guess, by) == a as i128
}
