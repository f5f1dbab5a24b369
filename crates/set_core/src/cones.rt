//! Tests of vectors.
ghost use Rattle.std.specs.Prelude.{◌↔◌, IsTrue, OkIff, All, map};
ghost use Rattle.ratio_core.specs.Folds.{FoldFits, sum_from};
ghost use Rattle.ratio_core.specs.Rational.{zero_ℚ, ◌≤ℚ◌, abs_ℚ};
ghost use Rattle.set_core.specs.Answers.{TellsWhere};
ghost use Rattle.set_core.specs.Vectors.{AllZero, AllNonnegative, AllNonpositive, DominatesEach, DominatesSum, NormFits};

use crate::SetOverflow;
use crate::numbers::at_most;
use ratio_core::Ratio;

pub(crate) fn all_zero(v: &[Ratio]) -> bool
    ensures { IsTrue result ↔ AllZero v.now }
{
    v.iter().all(|q| q.is_zero())
}

pub(crate) fn all_nonnegative(v: &[Ratio]) -> bool
    ensures { IsTrue result ↔ AllNonnegative v.now }
{
    v.iter().all(|q| at_most(&Ratio::zero(), q))
}

pub(crate) fn all_nonpositive(v: &[Ratio]) -> bool
    ensures { IsTrue result ↔ AllNonpositive v.now }
{
    v.iter().all(|q| at_most(q, &Ratio::zero()))
}

// Whether the first number is at least the magnitude of each other.
pub(crate) fn dominates_each(v: &[Ratio]) -> bool
    ensures { IsTrue result ↔ DominatesEach v.now }
{
    match v {
        [] => true,
        [first, others @ ..] => all_within(others, first),
    }
}

// Whether each magnitude is at most a number.
fn all_within(v: &[Ratio], most: &Ratio) -> bool
    ensures { IsTrue result ↔ All (λ q. abs_ℚ q ≤ℚ most.now) v.now }
{
    v.iter().all(|q| at_most(&q.abs(), most))
}

// Whether the first number is at least the sum of the magnitudes of the others, added from the
// left.
pub(crate) fn dominates_sum(v: &[Ratio]) -> Result<bool, SetOverflow>
    ensures { TellsWhere result (NormFits v.now) (DominatesSum v.now) }
{
    match v {
        [] => Ok(true),
        [first, others @ ..] => match sum_of_magnitudes(others) {
            Ok(sum) => Ok(at_most(&sum, first)),
            Err(fault) => Err(fault),
        },
    }
}

// The sum of the magnitudes, added from the left.
fn sum_of_magnitudes(v: &[Ratio]) -> Result<Ratio, SetOverflow>
    ensures { let magnitudes = map abs_ℚ v.now in
        OkIff result (FoldFits zero_ℚ magnitudes) (sum_from zero_ℚ magnitudes) }
{
    let mut sum = Ratio::zero();
    for q in v {
        match sum.add(&q.abs()) {
            Ok(next) => sum = next,
            Err(_) => return Err(SetOverflow),
        }
    }
    Ok(sum)
}
