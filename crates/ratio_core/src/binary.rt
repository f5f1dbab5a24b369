// Greatest common divisors in 64 bits, by halves and differences (Stein's rule).
ghost use Rattle.std.specs.Prelude.{◌≡◌, ◌≢◌, ◌%◌, ◌<◌, ◌^◌, min};
ghost use Rattle.std.specs.Int.{abs_diff};
ghost use Rattle.ratio_core.specs.Gcd.{IsOddPart, gcd};

use crate::divisor::NARROW;

// 2^64.
const HALF: u128 = 18446744073709551616;

/// The greatest common divisor, where the second number is above 0.
pub fn narrow_divisor(a: u64, b: u64) -> u64
    requires { 0 < b }
    ensures value { result ≡ gcd a b }
    ensures positive { 0 < result }
{
    if a == 1 || b == 1 {
        return 1;
    }
    if a == 0 {
        return b;
    }
    let (left, right) = (a.trailing_zeros(), b.trailing_zeros());
    odd_divisor(a >> left, b >> right) << lesser_count(left, right)
}

#[inline]
fn lesser_count(a: u32, b: u32) -> u32
    ensures { result ≡ min a b }
{
    if a < b { a } else { b }
}

#[inline]
fn odd_divisor(a: u64, b: u64) -> u64
    requires left { a % 2 ≡ 1 }
    requires right { b % 2 ≡ 1 }
    ensures { result ≡ gcd a b }
{
    let (mut x, mut y) = (a, b);
    while x != y {
        if x == 1 {
            return 1;
        }
        let rest = difference_without_twos(x, y);
        x = lesser(x, y);
        y = rest;
    }
    x
}

#[inline]
fn lesser(a: u64, b: u64) -> u64
    ensures { result ≡ min a b }
{
    if a < b { a } else { b }
}

// The difference and the wrapped one end in as many zeros, and the wrapped one is there sooner.
// Wrapped this way round it is a step of the difference itself.
#[inline]
fn difference_without_twos(a: u64, b: u64) -> u64
    requires { a ≢ b }
    ensures { IsOddPart (abs_diff a b) result }
{
    a.abs_diff(b) >> b.wrapping_sub(a).trailing_zeros()
}

// The same of wider numbers.
pub(crate) fn wide_divisor(a: u128, b: u128) -> u128
    requires left { 0 < a }
    requires right { 0 < b }
    ensures value { result ≡ gcd a b }
    ensures positive { 0 < result }
{
    let (left, right) = (a.trailing_zeros(), b.trailing_zeros());
    odd_wide_divisor(a >> left, b >> right) << lesser_count(left, right)
}

// In 64 bits as soon as both numbers fit.
fn odd_wide_divisor(a: u128, b: u128) -> u128
    requires left { a % 2 ≡ 1 }
    requires right { b % 2 ≡ 1 }
    ensures { result ≡ gcd a b }
{
    let (mut x, mut y) = (a, b);
    while x > NARROW || y > NARROW {
        if x == y {
            return x;
        }
        let rest = wide_difference_without_twos(x, y);
        x = lesser_wide(x, y);
        y = rest;
    }
    odd_divisor(x as u64, y as u64) as u128
}

#[inline]
fn lesser_wide(a: u128, b: u128) -> u128
    ensures { result ≡ min a b }
{
    if a < b { a } else { b }
}

// By the zeros of the low halves' difference, where it has them: a shift below 64 takes fewer
// steps.
#[inline]
fn wide_difference_without_twos(a: u128, b: u128) -> u128
    requires { a ≢ b }
    ensures { IsOddPart (abs_diff a b) result }
{
    let low = low_half(a).wrapping_sub(low_half(b));
    if low == 0 {
        return long_difference_without_twos(a, b);
    }
    a.abs_diff(b) >> low.trailing_zeros()
}

#[inline]
fn low_half(n: u128) -> u64
    ensures { result ≡ n % 2 ^ 64 }
{
    (n % HALF) as u64
}

#[inline]
fn long_difference_without_twos(a: u128, b: u128) -> u128
    requires { a ≢ b }
    ensures { IsOddPart (abs_diff a b) result }
{
    a.abs_diff(b) >> a.wrapping_sub(b).trailing_zeros()
}
