// The order of quotients, which need not fit.
ghost use Rattle.std.specs.Prelude.{◌≡◌, ◌*◌, unsigned_abs};
ghost use Rattle.std.specs.Ordering.{nat_cmp};
ghost use Rattle.ratio_core.specs.Rational.{rational_cmp, zero_ℚ, ◌/ℚ◌, ◌‹ℚ◌};

use crate::fraction::Ratio;
use crate::wide::{Wide, cmp_wide_products};
use std::cmp::Ordering;

impl Ratio {
    /// The order of `self / by` and `other / over`, exact whether or not these quotients fit 128
    /// bits.
    pub fn cmp_quotients(&self, by: &Ratio, other: &Ratio, over: &Ratio) -> Ordering
        requires by { zero_ℚ ‹ℚ by.now }
        requires over { zero_ℚ ‹ℚ over.now }
        ensures { result ≡ rational_cmp (self.now /ℚ by.now) (other.now /ℚ over.now) }
    {
        match (self.is_negative(), other.is_negative()) {
            (false, true) => Ordering::Greater,
            (true, false) => Ordering::Less,
            (false, false) => cmp_quotient_sizes(self, by, other, over),
            (true, true) => cmp_quotient_sizes(other, over, self, by),
        }
    }
}

// The order of the magnitudes of `p / a` and `q / b`: each is a product of a size and a denominator
// over another.
fn cmp_quotient_sizes(p: &Ratio, a: &Ratio, q: &Ratio, b: &Ratio) -> Ordering
    requires { zero_ℚ ‹ℚ b.now }
    ensures { result ≡ nat_cmp
        ((unsigned_abs p.now.num * a.now.den) * (q.now.den * unsigned_abs b.now.num))
        ((unsigned_abs q.now.num * b.now.den) * (p.now.den * unsigned_abs a.now.num)) }
{
    let left = Wide::product(p.size(), a.over());
    let left_over = Wide::product(p.over(), a.size());
    let right = Wide::product(q.size(), b.over());
    let right_over = Wide::product(q.over(), b.size());
    cmp_wide_products(&left, &right_over, &right, &left_over)
}
