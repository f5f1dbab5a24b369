//! The sets of duals, and the bounds of sets.
ghost use Rattle.std.specs.Prelude.{◌≡◌, IfOk, replicate};
ghost use Rattle.ratio_core.specs.Rational.{zero_ℚ};
ghost use Rattle.set_core.specs.Membership.{dual_of};
ghost use Rattle.dual_parts.specs.Parts.{bounds_on};
ghost use Rattle.dualization.specs.Fitting.{lone_bound};

use lists::Memory;
use ratio_core::Ratio;
use set_core::Set;
use std::alloc::Global;

/// The set of the duals of a set.
pub(crate) fn dual_set(alloc: Global, set: &Set) -> Result<Set, Memory>
    ensures { IfOk result (λ dual. dual ≡ dual_of set.now) }
{
    let zero = Ratio::zero();
    Ok(match set {
        Set::LessThan { .. } => Set::LessThan { upper: zero },
        Set::GreaterThan { .. } => Set::GreaterThan { lower: zero },
        Set::EqualTo { .. } | Set::Interval { .. } => Set::Reals { dimension: 1 },
        Set::Reals { dimension } => Set::Zeros {
            dimension: *dimension,
        },
        Set::Zeros { dimension } => Set::Reals {
            dimension: *dimension,
        },
        Set::NormInfinityCone { dimension } => Set::NormOneCone {
            dimension: *dimension,
        },
        Set::NormOneCone { dimension } => Set::NormInfinityCone {
            dimension: *dimension,
        },
        orthant => orthant.copy(alloc)?,
    })
}

/// The bound of a set of numbers with one.
pub(crate) fn lone_bound(set: &Set) -> Option<Ratio>
    ensures { result ≡ lone_bound set.now }
{
    match set {
        Set::LessThan { upper } => Some(*upper),
        Set::GreaterThan { lower } => Some(*lower),
        Set::EqualTo { value } => Some(*value),
        _ => None,
    }
}

/// What multiplies each part of this number of duals in the least product with the set.
pub(crate) fn bounds_on(alloc: Global, set: &Set, count: usize) -> Result<Vec<Ratio>, Memory>
    ensures { IfOk result (λ bounds. bounds.items ≡ bounds_on set.now count) }
{
    Ok(match set {
        Set::LessThan { upper: bound }
        | Set::GreaterThan { lower: bound }
        | Set::EqualTo { value: bound } => vec![in alloc; *bound]?,
        Set::Interval { lower, upper } => vec![in alloc; *lower, *upper]?,
        _ => zeros(alloc, count)?,
    })
}

/// This number of zeros.
pub(crate) fn zeros(alloc: Global, count: usize) -> Result<Vec<Ratio>, Memory>
    ensures { IfOk result (λ zeros. zeros.items ≡ replicate count zero_ℚ) }
{
    Ok(vec![in alloc; Ratio::zero(); count]?)
}
