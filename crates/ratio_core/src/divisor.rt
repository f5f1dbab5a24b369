// Greatest common divisors, and products and quotients that fit a part.
ghost use Rattle.std.specs.Prelude.{◌≡◌, ◌*◌, ◌/◌, ◌<◌, ◌^◌, OkIff, IsOkUnless};
ghost use Rattle.ratio_core.specs.Gcd.{gcd};

use crate::binary::{narrow_divisor, wide_divisor};
use crate::fault::RatioFault;

// The greatest magnitude of a part, 2^127 - 1.
pub(crate) const GREATEST_PART: u128 = 170141183460469231731687303715884105727;

// The greatest number of 64 bits.
pub(crate) const NARROW: u128 = u64::MAX as u128;

pub(crate) fn greatest_common_divisor(a: u128, b: u128) -> u128
    ensures value { result ≡ gcd a b }
    ensures positive { 0 < b → 0 < result }
{
    if a <= NARROW && b <= NARROW && b > 0 {
        return narrow_divisor(a as u64, b as u64) as u128;
    }
    unequal_divisor(a, b)
}

// In 64 bits after one remainder, where one of the two fits.
#[cold]
#[inline(never)]
#[tactic(auto, using(crate::specs::Gcd::remainders))]
fn unequal_divisor(a: u128, b: u128) -> u128
    ensures value { result ≡ gcd a b }
    ensures positive { 0 < b → 0 < result }
{
    if b == 0 {
        return a;
    }
    if a == 0 {
        return b;
    }
    if b <= NARROW {
        return narrow_divisor((a % b) as u64, b as u64) as u128;
    }
    if a <= NARROW {
        return narrow_divisor((b % a) as u64, a as u64) as u128;
    }
    wide_divisor(a, b)
}

// `a / by`, without a division by 1, and in 64 bits where both fit.
pub(crate) fn quotient(a: u128, by: u128) -> u128
    requires { 0 < by }
    ensures { result ≡ a / by }
{
    if by == 1 {
        a
    } else if a <= NARROW && by <= NARROW {
        (a as u64 / by as u64) as u128
    } else {
        a / by
    }
}

pub(crate) fn product(a: u128, b: u128) -> Result<u128, RatioFault>
    ensures exact { OkIff result (a * b < 2 ^ 127) (a * b) }
    ensures err { IsOkUnless result RatioFault.Overflow }
{
    if a <= u64::MAX as u128 && b <= u64::MAX as u128 >> 1 {
        return Ok(a * b);
    }
    match a.checked_mul(b) {
        Some(whole) if whole <= GREATEST_PART => Ok(whole),
        _ => Err(RatioFault::Overflow),
    }
}
