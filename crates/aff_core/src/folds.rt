//! Products added to a number, or to the coefficients that they meet, from the left.
ghost use Rattle.std.specs.Prelude.{◌≡◌, OkIff, IsOkUnless};
ghost use Rattle.std.specs.FinMap as finite;
ghost use Rattle.ratio_core.specs.Rational.{◌+ℚ◌, ◌*ℚ◌};
ghost use Rattle.ratio_core.specs.Answers.{ExactWhere};
ghost use Rattle.aff_core.specs.Arithmetic.{MeetsFit, TermsFit, added_at, added_terms};
ghost use Rattle.aff_core.specs.Terms.{StepFits, TimesFit, times};

use crate::{Address, Point};
use ratio_core::{NumberFault, Ratio};

// A product added to a sum.
pub(crate) fn plus_product(sum: &Ratio, a: &Ratio, b: &Ratio) -> Result<Ratio, NumberFault>
    ensures exact { OkIff result (StepFits sum.now a.now b.now) (sum.now +ℚ (a.now *ℚ b.now)) }
    ensures err { IsOkUnless result NumberFault.Overflow }
{
    let product = a.mul(b)?;
    Ok(sum.add(&product)?)
}

// Adds a number times each coefficient to what stands at its address.
pub(crate) fn add_products(
    sums: &mut Point,
    by: &Ratio,
    terms: &[(Address, Ratio)],
) -> Result<(), NumberFault>
    ensures { let products = times by.now terms.now in
        ExactWhere result (TimesFit by.now terms.now × TermsFit sums.old products)
        (λ _. sums.new ≡ added_terms sums.old products) }
{
    for (address, coefficient) in terms {
        let product = by.mul(coefficient)?;
        add_at(sums, *address, &product)?;
    }
    Ok(())
}

// Adds a number to what stands at an address.
fn add_at(sums: &mut Point, at: Address, number: &Ratio) -> Result<(), NumberFault>
    ensures { ExactWhere result (MeetsFit (finite.get sums.old at) number.now)
        (λ _. sums.new ≡ added_at sums.old at number.now) }
{
    let sum = match sums.get(&at) {
        Some(before) => before.add(number)?,
        None => *number,
    };
    match sums.put(at, sum) {
        Ok(_) => Ok(()),
        Err(_) => Err(NumberFault::Memory),
    }
}
