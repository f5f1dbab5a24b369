//! Tests of numbers, and what else a set asks of them.
ghost use Rattle.std.specs.Prelude.{◌≡◌, ◌↔◌, ◌<◌, IsTrue, OkIff, length};
ghost use Rattle.ratio_core.specs.Rational.{◌≤ℚ◌, ◌*ℚ◌, Fits};
ghost use Rattle.set_core.specs.Vectors.{first_of};

use crate::SetOverflow;
use ratio_core::Ratio;

// Whether a number is at most another.
#[tactic(auto, using(rational_laws::specs::Tests::rational_tests))]
pub(crate) fn at_most(a: &Ratio, b: &Ratio) -> bool
    ensures { IsTrue result ↔ (a.now ≤ℚ b.now) }
{
    a <= b
}

// Whether a number is at least one and at most another.
pub(crate) fn is_between(lower: &Ratio, q: &Ratio, upper: &Ratio) -> bool
    ensures { IsTrue result ↔ (lower.now ≤ℚ q.now) × (q.now ≤ℚ upper.now) }
{
    at_most(lower, q) && at_most(q, upper)
}

// The first number.
pub(crate) fn first(v: &[Ratio]) -> Ratio
    requires { 0 < length v.now }
    ensures { result ≡ first_of v.now }
{
    v[0]
}

// A product, where it fits.
pub(crate) fn product(a: &Ratio, b: &Ratio) -> Result<Ratio, SetOverflow>
    ensures { OkIff result (Fits (a.now *ℚ b.now)) (a.now *ℚ b.now) }
{
    match a.mul(b) {
        Ok(product) => Ok(product),
        Err(_) => Err(SetOverflow),
    }
}
