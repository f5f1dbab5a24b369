//! Numbers and functions less others.
ghost use Rattle.std.specs.Prelude.{◌≡◌};
ghost use Rattle.aff_core.specs.Arithmetic.{PlusFits};
ghost use Rattle.aff_core.specs.Function.{negated};
ghost use Rattle.bridge_face.specs.Images.{difference};
ghost use Rattle.ratio_core.specs.Rational.{SumFits, neg_ℚ, ◌-ℚ◌};
ghost use Rattle.ratio_core.specs.Answers.{ExactWhere};

use aff_core::Aff;
use ratio_core::{NumberFault, Ratio};

// A number less another.
pub(crate) fn less_number(number: &Ratio, other: &Ratio) -> Result<Ratio, NumberFault>
    ensures { ExactWhere result (SumFits number.now (neg_ℚ other.now))
        (λ less. less ≡ number.now -ℚ other.now) }
{
    Ok(number.sub(other)?)
}

// A function less another.
pub(crate) fn less_function(func: &Aff, other: &Aff) -> Result<Aff, NumberFault>
    ensures { ExactWhere result (PlusFits func.now (negated other.now))
        (λ less. less ≡ difference func.now other.now) }
{
    func.add(&other.neg()?)
}
