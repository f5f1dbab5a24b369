//! Sums from the left.
ghost use Rattle.std.specs.Prelude.{◌≡◌};
ghost use Rattle.ratio_core.specs.Rational.{◌+ℚ◌, ◌*ℚ◌};
ghost use Rattle.ratio_core.specs.Answers.{ExactWhere};
ghost use Rattle.aff_core.specs.Terms.{StepFits, linear};
ghost use Rattle.cert_core.specs.Folds.{AddUp, products_at};
ghost use Rattle.cert_core.specs.Points.{numbers_in};

use crate::point::ModelPoint;
use aff_core::Address;
use ratio_core::{NumberFault, Ratio};

/// A product added to a sum.
pub(crate) fn plus_product(sum: &Ratio, a: &Ratio, b: &Ratio) -> Result<Ratio, NumberFault>
    ensures { ExactWhere result (StepFits sum.now a.now b.now)
        (λ q. q ≡ sum.now +ℚ a.now *ℚ b.now) }
{
    let product = a.mul(b)?;
    Ok(sum.add(&product)?)
}

/// Each coefficient times the number of its variable, added to a number.
pub(crate) fn plus_terms(
    start: &Ratio,
    terms: &[(Address, Ratio)],
    at: &ModelPoint,
) -> Result<Ratio, NumberFault>
    ensures { let x = numbers_in at.now in
        ExactWhere result (AddUp start.now (products_at terms.now x))
        (λ q. q ≡ start.now +ℚ linear terms.now x) }
{
    let mut sum = *start;
    for (address, coefficient) in terms {
        sum = plus_product(&sum, coefficient, &at.number(address))?;
    }
    Ok(sum)
}
