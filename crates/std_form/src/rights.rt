//! The right sides of equations.
ghost use Rattle.std.specs.Prelude.{◌≡◌, ◌≢◌, ℕ, All, Err, IfOk, IsErrOf, OkIff, OnOk, map};
ghost use Rattle.std.proofs.Common.{is_lt};
ghost use Rattle.ratio_core.specs.Rational.{rational_cmp, zero_ℚ};
ghost use Rattle.equality_form.specs.EqualityForm.{right_sides};
ghost use Rattle.equality_form.specs.Equations.{RightFits, is_flipped, right_of};
ghost use Rattle.std_form.specs.Borrowed.{equation_in};

use crate::equation::{Equation, number_of};
use crate::fault::FormFault;
use crate::numbers::flipped;
use ratio_core::{Ratio, RatioFault};
use std::alloc::Global;

/// Right sides that aren't negative, and which of them were multiplied by -1 for that.
#[derive(Drop)]
pub(crate) struct Sides {
    pub(crate) right: Vec<Ratio>,
    pub(crate) flips: Vec<bool>,
}

// The set's number without the function's constant.
fn right_of(equation: &Equation) -> Result<Ratio, RatioFault>
    ensures { OkIff result (RightFits (equation_in equation.now))
        (right_of (equation_in equation.now)) }
{
    number_of(equation.set).sub(&equation.function.constant())
}

fn is_negative(side: Ratio) -> bool
    ensures { result ≡ is_lt (rational_cmp side zero_ℚ) }
{
    side < Ratio::zero()
}

pub(crate) fn sides_of(alloc: Global, equations: &[Equation]) -> Result<Sides, FormFault>
    ensures right { IfOk result (λ sides.
        sides.right.items ≡ right_sides (map equation_in equations.now)) }
    ensures flips { IfOk result (λ sides.
        sides.flips.items ≡ map is_flipped (map equation_in equations.now)) }
    ensures fit { OnOk result (All RightFits (map equation_in equations.now)) }
    ensures overflow { IsErrOf result FormFault.Overflow
        → ¬ All RightFits (map equation_in equations.now) }
    ensures not_large { (cells : ℕ) → result ≢ Err (FormFault.TooLarge cells) }
{
    let mut right = Vec::with_capacity(alloc, equations.len())?;
    let mut flips = Vec::with_capacity(alloc, equations.len())?;
    for equation in equations {
        let side = right_of(equation)?;
        let is_flipped = is_negative(side);
        right.push(flipped(is_flipped, side))?;
        flips.push(is_flipped)?;
    }
    Ok(Sides { right, flips })
}
