//! Whole numbers of 64 bits.
ghost use Rattle.std.specs.Prelude.{◌≡◌, ◌+◌, ◌*◌, ◌/◌, ◌<◌, ◌≤◌, ◌^◌, ◌*ℤ◌, MatchOption, int_div, pos, unsigned_abs};
ghost use Rattle.ratio_core.specs.Gcd.{gcd};

use ratio_core::narrow_divisor;

// Numerators, denominators and bounds are below it.
const END: u128 = 9223372036854775808;

// The greatest common divisor: the remainder first, which mostly is small.
#[tactic(auto, using(ratio_core::specs::Gcd::remainders))]
pub(crate) fn common_divisor(a: u64, b: u64) -> u64
    requires { 0 < b }
    ensures value { result ≡ gcd a b }
    ensures positive { 0 < result }
    ensures within { result ≤ b }
{
    if b == 1 {
        return 1;
    }
    narrow_divisor(a % b, b)
}

// A number divided by what divides it.
#[inline]
pub(crate) fn exact(a: i64, by: u64) -> i64
    requires positive { 0 < by }
    requires small { by < 2 ^ 63 }
    ensures { result ≡ int_div a (pos by) }
{
    if by == 1 {
        return a;
    }
    a / by as i64
}

// A size divided by what divides it.
#[inline]
pub(crate) fn part(size: u64, by: u64) -> u64
    requires { 0 < by }
    ensures { result ≡ size / by }
{
    if by == 1 {
        return size;
    }
    size / by
}

// A numerator multiplied, where it stays below 2^63.
#[inline]
pub(crate) fn multiplied(number: i64, over: u64) -> i64
    requires over { over < 2 ^ 63 }
    requires fits { unsigned_abs number * over < 2 ^ 63 }
    ensures { result ≡ number *ℤ pos over }
{
    number * over as i64
}

// The bound of numerators that are lowered and stay below 2^63, where they aren't multiplied.
#[inline]
pub(crate) fn raised(bound: u64, size: u64, greatest: u64) -> u64
    requires { bound + size * greatest < 2 ^ 63 }
    ensures { result ≡ bound + size * greatest }
{
    bound + size * greatest
}

// The bound of numerators that are lowered, where it stays below 2^63.
#[inline]
pub(crate) fn next_bound(bound: u64, over: u64, size: u64, greatest: u64) -> Option<u64>
    requires bound { bound < 2 ^ 63 }
    requires over { over < 2 ^ 63 }
    requires size { size < 2 ^ 63 }
    requires greatest { greatest < 2 ^ 63 }
    ensures { MatchOption result
        (2 ^ 63 ≤ bound * over + size * greatest)
        (λ n. (n ≡ bound * over + size * greatest) × (n < 2 ^ 63)) }
{
    let next = bound as u128 * over as u128 + size as u128 * greatest as u128;
    if next < END { Some(next as u64) } else { None }
}

// The denominator of a row that is lowered, where it stays below 2^63.
#[inline]
pub(crate) fn next_den(den: u64, over: u64) -> Option<u64>
    requires den { den < 2 ^ 63 }
    requires over { over < 2 ^ 63 }
    ensures { MatchOption result (2 ^ 63 ≤ den * over) (λ n. (n ≡ den * over) × (n < 2 ^ 63)) }
{
    let next = den as u128 * over as u128;
    if next < END { Some(next as u64) } else { None }
}
