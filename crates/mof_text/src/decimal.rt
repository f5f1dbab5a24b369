//! The exact number that a numeral writes. The work is bounded by the numeral's length, whatever
//! the value of its exponent.
ghost use Rattle.std.specs.Prelude.{◌≡◌, ◌+◌, ◌*◌, ◌^◌, ◌<◌, ◌≤◌, ◌++◌, length, IfSome, MatchOption, ◌&&◌};
ghost use Rattle.std.specs.Option.{SomeIff};
ghost use Rattle.std.specs.Str.Parse.{AllDigits, digits_value};
ghost use Rattle.ratio_core.specs.Rational.{Fits, reduce, signed};
ghost use Rattle.mof_text.specs.Decimal.{MovesBy, are_zeros, over_ten, times_ten};
ghost use Rattle.mof_text.specs.Numeral.{number_of};
ghost use Rattle.mof_text.specs.Tenths.{TellsFraction};

use crate::digits::{GREATEST_PART, are_zeros, value_after, zeros};
use crate::tenths::Tenths;
use fast_float::Numeral;
use ratio_core::Ratio;

/// The number that a numeral writes, with this sign. `None` exactly where it doesn't fit.
pub(crate) fn exact_number(is_negative: bool, numeral: &Numeral) -> Option<Ratio>
    ensures { SomeIff result
        (Fits (number_of is_negative numeral.now)) (number_of is_negative numeral.now) }
{
    let count = numeral.whole().len() + numeral.fraction().len();
    match short_power(count, numeral.exponent()) {
        Some(power) => short_number(is_negative, numeral, power),
        None => long_number(is_negative, numeral),
    }
}

/// Up to this number of digits, and this exponent, need no fraction in between.
const SHORT: u32 = 18;

// The exponent's value, where it and the count of digits are short.
fn short_power(count: usize, exponent: &[u8]) -> Option<u32>
    requires { AllDigits 10 exponent.now }
    ensures { IfSome result (λ power. (power ≡ digits_value 10 exponent.now) × (power ≤ 18)
        × (count ≤ 18)) }
{
    let power = value_after(0, exponent)?;
    if power > SHORT as u128 || count > SHORT as usize {
        return None;
    }
    Some(power as u32)
}

// The number of a numeral with few digits and this exponent.
fn short_number(is_negative: bool, numeral: &Numeral, power: u32) -> Option<Ratio>
    requires power { power ≡ digits_value 10 numeral.now.exponent }
    requires small { power ≤ 18 }
    requires short { length numeral.now.whole + length numeral.now.fraction ≤ 18 }
    ensures { SomeIff result
        (Fits (number_of is_negative numeral.now)) (number_of is_negative numeral.now) }
{
    let (whole, fraction) = (numeral.whole(), numeral.fraction());
    let places = fraction.len() as u32;
    if numeral.is_exponent_negative() {
        scaled_digits(is_negative, whole, fraction, 0, places + power)
    } else {
        scaled_digits(is_negative, whole, fraction, power, places)
    }
}

// The number of any numeral.
fn long_number(is_negative: bool, numeral: &Numeral) -> Option<Ratio>
    ensures { SomeIff result
        (Fits (number_of is_negative numeral.now)) (number_of is_negative numeral.now) }
{
    let (whole, fraction) = (numeral.whole(), numeral.fraction());
    if are_all_zeros(whole, fraction) {
        return Some(Ratio::zero());
    }
    if numeral.is_exponent_negative() {
        over_ten(is_negative, whole, fraction, numeral.exponent())
    } else {
        times_ten(is_negative, whole, fraction, numeral.exponent())
    }
}

fn are_all_zeros(whole: &[u8], fraction: &[u8]) -> bool
    ensures { result ≡ (are_zeros whole.now && are_zeros fraction.now) }
{
    are_zeros(whole) && are_zeros(fraction)
}

// `whole.fraction` without its point, times one power of ten and over another.
fn scaled_digits(
    is_negative: bool,
    whole: &[u8],
    fraction: &[u8],
    up: u32,
    down: u32,
) -> Option<Ratio>
    requires whole { AllDigits 10 whole.now }
    requires fraction { AllDigits 10 fraction.now }
    requires short { length whole.now + length fraction.now ≤ 18 }
    requires up { up ≤ 18 }
    requires down { down ≤ 36 }
    ensures { let q = reduce
        (signed is_negative (digits_value 10 (whole.now ++ fraction.now) * 10 ^ up)) (10 ^ down) in
        SomeIff result (Fits q) q }
{
    let digits = value_after(value_after(0, whole)?, fraction)?;
    quotient(is_negative, digits * 10u128.pow(up), 10u128.pow(down))
}

// `whole.fraction` over that power of ten.
fn over_ten(is_negative: bool, whole: &[u8], fraction: &[u8], exponent: &[u8]) -> Option<Ratio>
    requires whole { AllDigits 10 whole.now }
    requires fraction { AllDigits 10 fraction.now }
    requires exponent { AllDigits 10 exponent.now }
    requires nonzero { 0 < digits_value 10 (whole.now ++ fraction.now) }
    ensures { let q = over_ten is_negative whole.now fraction.now (digits_value 10 exponent.now) in
        SomeIff result (Fits q) q }
{
    let shift = shift_of(whole.len(), exponent)?;
    let parts = whole.split_at(whole.len() - shift.moved);
    let part = part_behind(shift.zeros, parts.1, fraction)?;
    let size = size_before(parts.0, &[], 0)?;
    joined(is_negative, size, part)
}

// `whole.fraction` times that power of ten.
fn times_ten(is_negative: bool, whole: &[u8], fraction: &[u8], exponent: &[u8]) -> Option<Ratio>
    requires whole { AllDigits 10 whole.now }
    requires fraction { AllDigits 10 fraction.now }
    requires exponent { AllDigits 10 exponent.now }
    requires nonzero { 0 < digits_value 10 (whole.now ++ fraction.now) }
    ensures { let q = times_ten is_negative whole.now fraction.now (digits_value 10 exponent.now) in
        SomeIff result (Fits q) q }
{
    let shift = shift_of(fraction.len(), exponent)?;
    let parts = fraction.split_at(shift.moved);
    let part = part_behind(0, &[], parts.1)?;
    let size = size_before(whole, parts.0, shift.zeros)?;
    joined(is_negative, size, part)
}

// How a point is moved over digits: how many it passes, and how many zeros it needs past the last.
#[derive(Clone, Copy)]
struct Shift {
    moved: usize,
    zeros: usize,
}

// The shift over this number of digits, or `None` for 39 zeros and more.
fn shift_of(len: usize, exponent: &[u8]) -> Option<Shift>
    requires { AllDigits 10 exponent.now }
    ensures { MatchOption result (len + 39 ≤ digits_value 10 exponent.now)
        (λ shift. MovesBy len (digits_value 10 exponent.now) shift.moved shift.zeros) }
{
    let power = value_after(0, exponent)?;
    let moved = power.min(len as u128);
    if power - moved >= 39 {
        return None;
    }
    Some(Shift {
        moved: moved as usize,
        zeros: (power - moved) as usize,
    })
}

// The fraction that zeros and then the digits write behind a point.
fn part_behind(count: usize, first: &[u8], last: &[u8]) -> Option<Tenths>
    requires few { count < 39 }
    requires first { AllDigits 10 first.now }
    requires last { AllDigits 10 last.now }
    ensures { TellsFraction (digits_value 10 (first.now ++ last.now))
        (10 ^ (count + length first.now + length last.now)) result }
{
    let part = Tenths::zero().behind_all(last)?.behind_all(first)?;
    part.behind_all(zeros(count))
}

// The number that the digits and then zeros write, if it is at most 2^127 - 1.
fn size_before(first: &[u8], last: &[u8], count: usize) -> Option<u128>
    requires few { count < 39 }
    requires first { AllDigits 10 first.now }
    requires last { AllDigits 10 last.now }
    ensures { let size = digits_value 10 (first.now ++ last.now) * 10 ^ count in
        SomeIff result (size < 2 ^ 127) size }
{
    let size = value_after(value_after(0, first)?, last)?;
    value_after(size, zeros(count))
}

// The whole number and the fraction together.
fn joined(is_negative: bool, size: u128, part: Tenths) -> Option<Ratio>
    requires { size < 2 ^ 127 }
    ensures { let q = reduce (signed is_negative (size * part.den + part.num)) part.den in
        SomeIff result (Fits q) q }
{
    let num = size.checked_mul(part.den)?.checked_add(part.num)?;
    if num > GREATEST_PART {
        return None;
    }
    quotient(is_negative, num, part.den)
}

fn quotient(is_negative: bool, num: u128, den: u128) -> Option<Ratio>
    requires num { num < 2 ^ 127 }
    requires some { 0 < den }
    requires den { den < 2 ^ 127 }
    ensures { let q = reduce (signed is_negative num) den in SomeIff result (Fits q) q }
{
    Ratio::new(signed(is_negative, num), den as i128).ok()
}

fn signed(is_negative: bool, size: u128) -> i128
    requires { size < 2 ^ 127 }
    ensures { result ≡ signed is_negative size }
{
    if is_negative {
        -(size as i128)
    } else {
        size as i128
    }
}
