//! What is carried back of the duals of two halves.
ghost use Rattle.std.specs.Prelude.{◌≡◌, ◌+◌, ◌/◌, ◌≤◌, ◌∷◌, drop, length, take};
ghost use Rattle.ratio_core.specs.Folds.{FoldFits, sum_from};
ghost use Rattle.ratio_core.specs.Rational.{zero_ℚ};
ghost use Rattle.ratio_core.specs.Answers.{ExactWhere};
ghost use Rattle.rational_laws.specs.Dot.{minus, negated};
ghost use Rattle.bridge_face.specs.BackOf.{AcrossFits, SumsFit, across};

use crate::differences::less_number;
use ratio_core::{NumberFault, Ratio, Ratios};
use std::alloc::Global;

// The sum of the numbers, added from the left.
pub(crate) fn sum(numbers: &[Ratio]) -> Result<Ratio, NumberFault>
    ensures { ExactWhere result (FoldFits zero_ℚ numbers.now)
        (λ sum. sum ≡ sum_from zero_ℚ numbers.now) }
{
    let mut sum = Ratio::zero();
    for number in numbers {
        sum = sum.add(number)?;
    }
    Ok(sum)
}

// A number, and behind it the differences of the second half and the first.
pub(crate) fn across_behind(
    alloc: Global,
    first: Ratio,
    numbers: &[Ratio],
) -> Result<Ratios, NumberFault>
    requires { length numbers.now ≡ length numbers.now / 2 + length numbers.now / 2 }
    ensures { ExactWhere result (AcrossFits (length numbers.now / 2) numbers.now)
        (λ behind. behind ≡ first ∷ across (length numbers.now / 2) numbers.now) }
{
    let half = numbers.len() / 2;
    behind(alloc, first, from(numbers, half), until(numbers, half))
}

// The numbers from this one on.
fn from(numbers: &[Ratio], n: usize) -> &[Ratio]
    requires { n ≤ length numbers.now }
    ensures { result.now ≡ drop n numbers.now }
{
    &numbers[n..]
}

// The numbers before this one.
fn until(numbers: &[Ratio], n: usize) -> &[Ratio]
    requires { n ≤ length numbers.now }
    ensures { result.now ≡ take n numbers.now }
{
    &numbers[..n]
}

// A number, and behind it the differences of what stands at equal places.
fn behind(alloc: Global, first: Ratio, high: &[Ratio], low: &[Ratio]) -> Result<Ratios, NumberFault>
    requires { length high.now ≡ length low.now }
    ensures { ExactWhere result (SumsFit high.now (negated low.now))
        (λ numbers. numbers ≡ first ∷ minus high.now low.now) }
{
    let mut numbers = Vec::with_capacity(alloc, high.len())?;
    numbers.push(first)?;
    for n in 0..high.len() {
        numbers.push(less_number(&high[n], &low[n])?)?;
    }
    Ok(Ratios::from_vec(numbers))
}
