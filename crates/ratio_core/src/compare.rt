// Equality and order.
ghost use Rattle.std.specs.Prelude.{◌≡◌, ◌<◌, ◌*◌, cond, false, refl, true};
ghost use Rattle.std.specs.Ordering.{as_partial_cmp, int_cmp, nat_cmp};
ghost use Rattle.ratio_core.specs.Rational.{rational_cmp, rational_eq};
ghost use Rattle.ratio_core.specs.RationalLaws.{rational_cmp_total, rational_eq-is_eq, rational_eq_equiv, rational_eq_partial_equiv, rational_partial_order};

use crate::divisor::NARROW;
use crate::fraction::Ratio;
use std::cmp::Ordering;

impl PartialEq for Ratio {
    ghost eq = { rational_eq };

    ghost laws = { rational_eq_partial_equiv };

    fn eq(&self, other: &Ratio) -> bool {
        self.num() == other.num() && self.over() == other.over()
    }
}

impl Eq for Ratio {
    ghost laws = { rational_eq_equiv };
}

impl PartialOrd for Ratio {
    ghost partial_cmp = { as_partial_cmp rational_cmp };

    ghost laws = { rational_partial_order };

    fn partial_cmp(&self, other: &Ratio) -> Option<Ordering> {
        Some(self.cmp(other))
    }
}

impl Ord for Ratio {
    ghost cmp = { rational_cmp };

    ghost total = { rational_cmp_total };

    ghost matches_partial_cmp = { λ p q. refl };

    ghost matches_eq = { rational_eq-is_eq };

    #[inline(always)]
    fn cmp(&self, other: &Ratio) -> Ordering {
        if self.over() == other.over() {
            return cmp_numerators(self.num(), other.num());
        }
        self.cmp_by_products(other)
    }
}

impl Ratio {
    #[inline(always)]
    fn cmp_by_products(&self, other: &Ratio) -> Ordering
        ensures { result ≡ rational_cmp self.now other.now }
    {
        match (self.is_negative(), other.is_negative()) {
            (false, true) => Ordering::Greater,
            (true, false) => Ordering::Less,
            (false, false) => cmp_products(self.size(), other.over(), other.size(), self.over()),
            (true, true) => cmp_products(other.size(), self.over(), self.size(), other.over()),
        }
    }
}

#[inline(always)]
fn cmp_numerators(a: i128, b: i128) -> Ordering
    ensures { result ≡ int_cmp a b }
{
    order_by_tests(a < b, a > b)
}

#[inline(always)]
fn cmp_narrow_products(a: u128, b: u128) -> Ordering
    ensures { result ≡ nat_cmp a b }
{
    order_by_tests(a < b, a > b)
}

// Without a branch: `a.cmp(&b)`, where it is inlined among other orders, becomes one on whether the
// two are equal.
#[inline(always)]
fn order_by_tests(is_less: bool, is_greater: bool) -> Ordering
    requires { is_less ≡ true → is_greater ≡ false }
    ensures { result ≡ cond is_less Ordering.Less
        (cond is_greater Ordering.Greater Ordering.Equal) }
{
    match i8::from(is_greater) - i8::from(is_less) {
        -1 => Ordering::Less,
        0 => Ordering::Equal,
        1 => Ordering::Greater,
        _ => unreachable!(),
    }
}

// `a * b` against `c * d`, which may pass 128 bits.
#[inline(always)]
#[tactic(auto, using(crate::proofs::Compared::nat_cmp_scaled))]
pub(crate) fn cmp_products(a: u128, b: u128, c: u128, d: u128) -> Ordering
    requires { 0 < b }
    ensures { result ≡ nat_cmp (a * b) (c * d) }
{
    if b == d {
        return a.cmp(&c);
    }
    if a <= NARROW && b <= NARROW && c <= NARROW && d <= NARROW {
        return cmp_narrow_products(a * b, c * d);
    }
    cmp_long_products(a, b, c, d)
}

// The same, in 256 bits.
#[inline(always)]
fn cmp_long_products(a: u128, b: u128, c: u128, d: u128) -> Ordering
    ensures { result ≡ nat_cmp (a * b) (c * d) }
{
    let (left_low, left_high) = a.carrying_mul(b, 0);
    let (right_low, right_high) = c.carrying_mul(d, 0);
    if left_high == right_high {
        return left_low.cmp(&right_low);
    }
    left_high.cmp(&right_high)
}
