//! What flips make of functions and sets.
ghost use Rattle.std.specs.Prelude.{◌≡◌, IfOk, map};
ghost use Rattle.aff_core.specs.Function.{negated};
ghost use Rattle.rational_laws.specs.Dot as numbers;
ghost use Rattle.set_core.specs.Mirrored.{mirrored};

use aff_core::{Aff, VecAff};
use lists::Memory;
use ratio_core::{Ratio, Ratios};
use set_core::Set;
use std::alloc::Global;

// The set of the negated vectors; a norm cone stays as it is.
pub(crate) fn mirror(set: &Set) -> Set
    ensures { result ≡ mirrored set.now }
{
    match set {
        Set::LessThan { upper } => Set::GreaterThan { lower: upper.neg() },
        Set::GreaterThan { lower } => Set::LessThan { upper: lower.neg() },
        Set::EqualTo { value } => Set::EqualTo { value: value.neg() },
        Set::Interval { lower, upper } => Set::Interval {
            lower: upper.neg(),
            upper: lower.neg(),
        },
        Set::Reals { dimension } => Set::Reals {
            dimension: *dimension,
        },
        Set::Zeros { dimension } => Set::Zeros {
            dimension: *dimension,
        },
        Set::Nonnegatives { dimension } => Set::Nonpositives {
            dimension: *dimension,
        },
        Set::Nonpositives { dimension } => Set::Nonnegatives {
            dimension: *dimension,
        },
        Set::NormInfinityCone { dimension } => Set::NormInfinityCone {
            dimension: *dimension,
        },
        Set::NormOneCone { dimension } => Set::NormOneCone {
            dimension: *dimension,
        },
    }
}

// Each number negated.
pub(crate) fn negations(alloc: Global, duals: &[Ratio]) -> Result<Ratios, Memory>
    ensures { IfOk result (λ negations. negations ≡ numbers.negated duals.now) }
{
    Ok(Ratios::from_vec(negated_list(alloc, duals)?))
}

fn negated_list(alloc: Global, duals: &[Ratio]) -> Result<Vec<Ratio>, Memory>
    ensures { IfOk result (λ negations. negations.items ≡ numbers.negated duals.now) }
{
    Ok(duals.iter().map(|dual| dual.neg()).collect(alloc)?)
}

// Each function negated.
pub(crate) fn negated_functions(alloc: Global, funcs: &[Aff]) -> Result<VecAff, Memory>
    ensures { IfOk result (λ negations. negations ≡ map negated funcs.now) }
{
    let mut negations = Vec::with_capacity(alloc, funcs.len())?;
    for func in funcs {
        negations.push(func.neg()?)?;
    }
    Ok(VecAff::from_vec(negations))
}
