//! Whether functions suit their sets, and how many components they have.
ghost use Rattle.std.specs.Prelude.{◌≡◌, ◌==◌, ◌&&◌, ◌||◌, MatchOption, false, length, nat_lt, not, true};
ghost use Rattle.set_core.specs.Shapes as tests;
ghost use Rattle.user_model.specs.Functions as functions;
ghost use Rattle.user_model.specs.Refusals.{differ};
ghost use Rattle.model_refusals.specs.Accepted.{IsComponent};

use crate::Component;
use aff_core::VecAff;
use set_core::Set;
use user_model::{NamedFunc, UserFunc};

/// Whether a scalar function meets a vector set, or a vector function a scalar one.
pub(crate) fn differ(scalar_function: bool, scalar_set: bool) -> bool
    ensures { result ≡ differ scalar_function scalar_set }
{
    scalar_function != scalar_set
}

/// Whether a set of numbers is given to other than one variable.
pub(crate) fn is_scalar_for_others(set: &Set, variables: usize) -> bool
    ensures { result ≡ (tests.is_scalar set.now && not (variables == 1)) }
{
    set.is_scalar() && variables != 1
}

pub(crate) fn is_scalar_named(func: &NamedFunc) -> bool
    ensures { result ≡ functions.is_scalar_named func.now }
{
    matches!(func, NamedFunc::Plain(_) | NamedFunc::Affine(_))
}

/// The number of components of a function by name.
pub(crate) fn named_components(func: &NamedFunc) -> usize
    ensures { result ≡ functions.named_components func.now }
{
    match func {
        NamedFunc::Plain(_) | NamedFunc::Affine(_) => 1,
        NamedFunc::PlainVec(vars) => vars.len(),
        NamedFunc::AffineVec(funcs) => funcs.len(),
    }
}

pub(crate) fn is_scalar_function(func: &UserFunc) -> bool
    ensures { result ≡ functions.is_scalar_function func.now }
{
    matches!(func, UserFunc::Plain(_) | UserFunc::Affine(_))
}

/// The number of components of a function of the model.
pub(crate) fn components(func: &UserFunc) -> usize
    ensures { result ≡ functions.components func.now }
{
    match func {
        UserFunc::Plain(_) | UserFunc::Affine(_) => 1,
        UserFunc::PlainVec(vars) => vars.len(),
        UserFunc::AffineVec(funcs) => funcs.len(),
    }
}

/// The component with an output, counted from 1, and none where the function has no such output.
pub(crate) fn component(funcs: &VecAff, output: u32) -> Option<Component<'_>>
    ensures { MatchOption result
        ((output == 0 || nat_lt (length funcs.now) output) ≡ true)
        (λ component. (component.funcs.now ≡ funcs.now) × IsComponent output component
        × ((output == 0 || nat_lt (length funcs.now) output) ≡ false)) }
{
    let place = (output as usize).checked_sub(1)?;
    let func = funcs.get(place)?;
    Some(Component { funcs, place, func })
}
