// Products past 128 bits, and their order.
ghost use Rattle.std.specs.Prelude.{◌≡◌, ◌+◌, ◌*◌, ◌<◌, ◌^◌};
ghost use Rattle.std.specs.Ordering.{nat_cmp};

use crate::compare::cmp_products;
use crate::divisor::NARROW;
use std::cmp::Ordering;
use std::marker::Model;

// A number of 256 bits, `low + high * 2^128`.
#[derive(Drop)]
pub(crate) struct Wide {
    low: u128,
    high: u128,
}

impl Model for Wide {
    ghost use Rattle.std.specs.Prelude.{ℕ, ◌+◌, ◌*◌, ◌<◌, ◌^◌};

    ghost Value = { ℕ };

    ghost view = { λ a. a.low + a.high * 2 ^ 128 };

    ghost invariant = { λ a. a.low < 2 ^ 128 };
}

impl Wide {
    // `a * b`.
    pub(crate) fn product(a: u128, b: u128) -> Wide
        ensures { result ≡ a * b }
    {
        if a <= NARROW && b <= NARROW {
            return Wide {
                low: a * b,
                high: 0,
            };
        }
        let (low, high) = a.carrying_mul(b, 0);
        Wide { low, high }
    }

    // The low and the high half of the product.
    fn times(&self, other: &Wide) -> (Wide, Wide)
        ensures value { result.0 + result.1 * 2 ^ 256 ≡ self.now * other.now }
        ensures low { result.0 < 2 ^ 256 }
    {
        let (first, up) = self.low.carrying_mul(other.low, 0);
        let (part, over) = self.low.carrying_mul(other.high, up);
        let (second, more) = self.high.carrying_mul(other.low, part);
        let (third, fourth) = self.high.carrying_mul_add(other.high, over, more);
        let low = Wide {
            low: first,
            high: second,
        };
        let high = Wide {
            low: third,
            high: fourth,
        };
        (low, high)
    }

    fn cmp_with(&self, other: &Wide) -> Ordering
        ensures { result ≡ nat_cmp self.now other.now }
    {
        let highs = self.high.cmp(&other.high);
        highs.then(self.low.cmp(&other.low))
    }
}

// `a * b` against `c * d`, which may pass 256 bits.
pub(crate) fn cmp_wide_products(a: &Wide, b: &Wide, c: &Wide, d: &Wide) -> Ordering
    requires { 0 < b.now }
    ensures { result ≡ nat_cmp (a.now * b.now) (c.now * d.now) }
{
    if a.high == 0 && b.high == 0 && c.high == 0 && d.high == 0 {
        return cmp_products(a.low, b.low, c.low, d.low);
    }
    let (left_low, left_high) = a.times(b);
    let (right_low, right_high) = c.times(d);
    let highs = left_high.cmp_with(&right_high);
    highs.then(left_low.cmp_with(&right_low))
}
