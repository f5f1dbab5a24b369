//! Sizes of 128 bits over a number of 64 bits. What divides is divided by with its inverse modulo
//! 2^64: a product takes a tenth of a division's time. The product is tested, so nothing rests on
//! the inverse.
ghost use Rattle.std.specs.Prelude.{◌≡◌, ◌*◌, ◌/◌, ◌%◌, ◌<◌, ◌^◌, ◌*ℤ◌, IfSome, IsTrue, pos, unsigned_abs};
ghost use Rattle.std.specs.Int.{◌∣◌, is_negative};
ghost use Rattle.ratio_core.specs.Rational.{signed};

use crate::widening::scaled;

// 2^63 and 2^64.
const END: u128 = 9223372036854775808;

const HALF: u128 = 18446744073709551616;

// The inverse modulo 2^64 of the odd part of a number, by Newton's rule: the first guess has five
// right digits, and each step doubles them.
pub(crate) fn inverse_of(by: u64) -> u64 {
    let odd = by.wrapping_shr(by.trailing_zeros());
    let mut inverse = odd.wrapping_mul(3) ^ 2;
    for _ in 0..4 {
        inverse = inverse.wrapping_mul(2u64.wrapping_sub(odd.wrapping_mul(inverse)));
    }
    inverse
}

// The inverse of the next number, which usually is the same one.
#[inline]
pub(crate) fn next_inverse(inverse: u64, by: u64, next: u64) -> u64 {
    if next == by {
        return inverse;
    }
    inverse_of(next)
}

// Whether a size is found to be a multiple.
#[inline]
pub(crate) fn is_multiple(size: u128, by: u64, inverse: u64) -> bool
    ensures { IsTrue result → by ∣ size }
{
    is_product(guess_of(size, by, inverse), by, size)
}

// What a multiple is divided to.
#[inline]
fn guess_of(size: u128, by: u64, inverse: u64) -> u64 {
    low_half(size.wrapping_shr(by.trailing_zeros() % 64)).wrapping_mul(inverse)
}

#[inline]
fn low_half(n: u128) -> u64 {
    (n % HALF) as u64
}

#[inline]
fn is_product(guess: u64, by: u64, size: u128) -> bool
    ensures { IsTrue result → guess * by ≡ size }
{
    guess as u128 * by as u128 == size
}

// The quotient, with the sign.
#[inline]
pub(crate) fn quotient_long(a: i128, by: u64, inverse: u64) -> i64
    requires positive { 0 < by }
    requires small_by { by < 2 ^ 63 }
    requires small { unsigned_abs a / by < 2 ^ 63 }
    ensures { result ≡ signed (is_negative a) (unsigned_abs a / by) }
{
    let guess = guess_of(a.cast_unsigned(), by, inverse).cast_signed();
    if is_signed_product(guess, by, a) {
        return guess;
    }
    divided_long(a, by)
}

#[inline]
fn is_signed_product(guess: i64, by: u64, a: i128) -> bool
    requires { by < 2 ^ 63 }
    ensures { IsTrue result → guess *ℤ pos by ≡ a }
{
    scaled(guess, by) == a
}

#[inline(never)]
fn divided_long(a: i128, by: u64) -> i64
    requires positive { 0 < by }
    requires small { unsigned_abs a / by < 2 ^ 63 }
    ensures { result ≡ signed (is_negative a) (unsigned_abs a / by) }
{
    let size = part_long(a.unsigned_abs(), by) as u64;
    if a < 0 { -(size as i64) } else { size as i64 }
}

// The quotient, where it is below 2^63.
pub(crate) fn short_quotient(size: u128, by: u64) -> Option<u64>
    requires { 0 < by }
    ensures { IfSome result (λ n. (n ≡ size / by) × (n < 2 ^ 63)) }
{
    let part = part_long(size, by);
    if part < END { Some(part as u64) } else { None }
}

#[inline]
fn part_long(size: u128, by: u64) -> u128
    requires { 0 < by }
    ensures { result ≡ size / by }
{
    if by == 1 {
        size
    } else if size < END {
        (size as u64 / by) as u128
    } else {
        size / by as u128
    }
}

#[inline]
pub(crate) fn rest_long(size: u128, by: u64) -> u64
    requires { 0 < by }
    ensures { result ≡ size % by }
{
    if size < END {
        size as u64 % by
    } else {
        (size % by as u128) as u64
    }
}
