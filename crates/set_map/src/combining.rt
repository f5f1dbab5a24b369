//! Combinations of affine functions.
ghost use Rattle.std.specs.Prelude.{◌≡◌, All, length};
ghost use Rattle.ratio_core.specs.Answers.{ExactWhere};
ghost use Rattle.ratio_core.specs.Rational.{zero_ℚ};
ghost use Rattle.aff_core.specs.Arithmetic.{scaled, sum_of};
ghost use Rattle.aff_core.specs.Function.{constant_function};
ghost use Rattle.set_map.specs.Combinations.{combined, mapped};
ghost use Rattle.set_map.specs.Fitting.{CombinationFits, MappedFits, MultipleAdds};

use aff_core::{Aff, VecAff};
use lists::Sequence;
use ratio_core::{NumberFault, Ratio, Ratios};
use std::alloc::Global;

/// For each row the sum of the functions, each times the row's number for it.
pub(crate) fn mapped(alloc: Global, rows: &[Ratios], fs: &[Aff]) -> Result<VecAff, NumberFault>
    requires { All (λ row. length row ≡ length fs.now) rows.now }
    ensures { ExactWhere result (MappedFits rows.now fs.now)
        (λ gs. gs ≡ mapped rows.now fs.now) }
{
    let mut combinations = Vec::with_capacity(alloc, rows.len())?;
    for row in rows {
        combinations.push(combined(alloc, row.as_slice(), fs)?)?;
    }
    Ok(Sequence::from_vec(combinations))
}

// The sum of the functions, each times its weight, from the left.
fn combined(alloc: Global, weights: &[Ratio], fs: &[Aff]) -> Result<Aff, NumberFault>
    requires { length weights.now ≡ length fs.now }
    ensures { ExactWhere result (CombinationFits (constant_function zero_ℚ) weights.now fs.now)
        (λ f. f ≡ combined weights.now fs.now) }
{
    let mut sum = Aff::constant_function(alloc, Ratio::zero());
    for (i, f) in fs.iter().enumerate() {
        sum = plus_multiple(&sum, &weights[i], f)?;
    }
    Ok(sum)
}

// A multiple of a function added to a sum.
fn plus_multiple(sum: &Aff, weight: &Ratio, f: &Aff) -> Result<Aff, NumberFault>
    ensures { ExactWhere result (MultipleAdds sum.now weight.now f.now)
        (λ total. total ≡ sum_of sum.now (scaled weight.now f.now)) }
{
    let multiple = f.scale(weight)?;
    sum.add(&multiple)
}
