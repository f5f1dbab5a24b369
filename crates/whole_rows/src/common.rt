//! Fractions over a common denominator.
ghost use Rattle.std.specs.Prelude.{◌≡◌, ◌<◌, ◌^◌, IfSome, unsigned_abs};
ghost use Rattle.whole_rows.specs.Common.{IsCommon, over_num};

use crate::arithmetic::{common_divisor, next_den, part};
use crate::widening::scaled;
use ratio_core::Ratio;

const END: i128 = 9223372036854775808;

/// The least denominator of all that are over this one and of the number, where it is below 2^63.
#[inline]
pub fn common_denominator(den: u64, value: &Ratio) -> Option<u64>
    requires above { 0 < den }
    requires small { den < 2 ^ 63 }
    ensures { IfSome result (λ common. IsCommon den value.now common) }
{
    let own = denominator(value)?;
    if own == 1 {
        return Some(den);
    }
    next_den(den, own / common_divisor(den, own))
}

/// The numerator of a number over a denominator, where it is below 2^63.
#[inline]
pub fn over_denominator(value: &Ratio, den: u64) -> Option<i64>
    requires above { 0 < den }
    requires small { den < 2 ^ 63 }
    ensures { IfSome result (λ n. (n ≡ over_num value.now den) × (unsigned_abs n < 2 ^ 63)) }
{
    let own = denominator(value)?;
    let num = short(value.num())?;
    short(scaled(num, part(den, own)))
}

// The denominator, where it is below 2^63.
#[inline]
fn denominator(value: &Ratio) -> Option<u64>
    ensures { IfSome result (λ own. (own ≡ value.now.den) × (0 < own) × (own < 2 ^ 63)) }
{
    let own = value.den();
    if own >= END {
        return None;
    }
    Some(own as u64)
}

// The number in 64 bits, where its size is below 2^63.
#[inline]
fn short(n: i128) -> Option<i64>
    ensures { IfSome result (λ m. (m ≡ n) × (unsigned_abs m < 2 ^ 63)) }
{
    if n >= END || n <= -END {
        return None;
    }
    Some(n as i64)
}
