//! Sums of duals, place by place.
ghost use Rattle.std.specs.Prelude.{◌≡◌, length};
ghost use Rattle.ratio_core.specs.Answers.{ExactWhere};
ghost use Rattle.rational_laws.specs.Dot.{plus};
ghost use Rattle.bridge_face.specs.BackOf.{SumsFit};

use ratio_core::{NumberFault, Ratio, Ratios};
use std::alloc::Global;

/// The sums of the numbers at equal places.
pub fn place_sums(alloc: Global, first: &[Ratio], second: &[Ratio]) -> Result<Ratios, NumberFault>
    requires { length first.now ≡ length second.now }
    ensures { ExactWhere result (SumsFit first.now second.now)
        (λ sums. sums ≡ plus first.now second.now) }
{
    let mut sums = Vec::with_capacity(alloc, first.len())?;
    for n in 0..first.len() {
        let sum = first[n].add(&second[n])?;
        sums.push(sum)?;
    }
    Ok(Ratios::from_vec(sums))
}
