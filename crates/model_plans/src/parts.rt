//! One coefficient or the constant of an affine function.
ghost use Rattle.std.specs.Prelude.{◌≡◌, ◌≢◌, IfOk, MatchBool};
ghost use Rattle.model_plans.specs.Plans.{IsChange, with_part};

use aff_core::Aff;
use model_refusals::NamedVariable;
use ratio_core::{Memory, Ratio};

/// What of an affine function an edit changes.
#[derive(Clone, Copy)]
pub(crate) enum Part<'a> {
    Coefficient(NamedVariable<'a>),
    Constant,
}

/// The function with another coefficient or constant, and none where it has that one.
pub(crate) fn replaced(func: &Aff, part: &Part, value: Ratio) -> Result<Option<Aff>, Memory>
    ensures { IfOk result (IsChange func.now (with_part part.now value func.now)) }
{
    if is_value(func, part, value) {
        return Ok(None);
    }
    Ok(Some(match part {
        Part::Coefficient(var) => func.with_coef(&var.address(), value)?,
        Part::Constant => func.with_constant(value)?,
    }))
}

// Whether the function has the value there.
fn is_value(func: &Aff, part: &Part, value: Ratio) -> bool
    ensures { MatchBool result (with_part part.now value func.now ≡ func.now)
        (with_part part.now value func.now ≢ func.now) }
{
    match part {
        Part::Coefficient(var) => func.coef(&var.address()) == value,
        Part::Constant => func.constant() == value,
    }
}
