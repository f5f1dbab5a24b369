//! Products of lists of numbers.
ghost use Rattle.std.specs.Prelude.{◌≡◌, All, length};
ghost use Rattle.ratio_core.specs.Answers.{ExactWhere};
ghost use Rattle.ratio_core.specs.Rational.{zero_ℚ, ◌+ℚ◌, ◌*ℚ◌};
ghost use Rattle.rational_laws.specs.Dot.{dot};
ghost use Rattle.aff_core.specs.Terms.{StepFits};
ghost use Rattle.set_map.specs.Fitting.{AppliedFits, DotFits};
ghost use Rattle.set_map.specs.Matrices.{applied};

use lists::Sequence;
use ratio_core::{NumberFault, Ratio, Ratios};
use std::alloc::Global;

/// The product of each row with a list of numbers. `Overflow` exactly where a product or a sum from
/// the left exceeds 128 bits.
pub(crate) fn applied(
    alloc: Global,
    rows: &[Ratios],
    numbers: &[Ratio],
) -> Result<Ratios, NumberFault>
    requires { All (λ row. length row ≡ length numbers.now) rows.now }
    ensures { ExactWhere result (AppliedFits rows.now numbers.now)
        (λ products. products ≡ applied rows.now numbers.now) }
{
    let mut products = Vec::with_capacity(alloc, rows.len())?;
    for row in rows {
        products.push(dot(row.as_slice(), numbers)?)?;
    }
    Ok(Sequence::from_vec(products))
}

// The sum of the products of what is at equal places, from the left.
fn dot(a: &[Ratio], b: &[Ratio]) -> Result<Ratio, NumberFault>
    requires { length a.now ≡ length b.now }
    ensures { ExactWhere result (DotFits zero_ℚ a.now b.now) (λ sum. sum ≡ dot a.now b.now) }
{
    let mut sum = Ratio::zero();
    for (i, p) in a.iter().enumerate() {
        sum = plus_product(&sum, p, &b[i])?;
    }
    Ok(sum)
}

// A product added to a sum.
fn plus_product(sum: &Ratio, p: &Ratio, q: &Ratio) -> Result<Ratio, NumberFault>
    ensures { ExactWhere result (StepFits sum.now p.now q.now)
        (λ total. total ≡ sum.now +ℚ p.now *ℚ q.now) }
{
    let product = p.mul(q)?;
    Ok(sum.add(&product)?)
}
