//! How many terms functions have, and would have after an edit.
ghost use Rattle.std.specs.Prelude.{◌≡◌, ◌≤◌, ◌<◌, ◌+◌, ◌^◌, ◌∷◌, [], IfOk, MatchResult, None, Some, map, sum, count_by, not, length, slice_get};
ghost use Rattle.ratio_core.specs.Rational.{rational_eq, zero_ℚ};
ghost use Rattle.aff_core.specs.Function.{with_coefficient};
ghost use Rattle.user_model.specs.Consistent.{IsConsistent};
ghost use Rattle.user_model.specs.Edited.{affine, changed_at, located};
ghost use Rattle.user_model.specs.Functions.{named_components, term_count, term_counts};
ghost use Rattle.user_model.specs.Limits as limits;
ghost use Rattle.user_model.specs.Model.{ModelValue};
ghost use Rattle.user_model.specs.Refusals.{IsKnown, first_of, full_at, within};

use crate::limits::TERMS;
use aff_core::{Address, Aff};
use named_aff::{NamedAff, NamedTerm, NamedVec};
use ratio_core::Ratio;
use user_model::{NamedFunc, Refusal};

/// How many terms the function with these names has in a model that has them: those with the
/// coefficient 0 are left out.
pub(crate) fn named_terms(func: &NamedAff) -> u64
    ensures value { (model : ModelValue) → IsConsistent model
        → IsKnown model (NamedFunc.Affine func.now) → result ≡ term_count (affine model func.now) }
    ensures fits { result ≤ 2 ^ 63 }
{
    nonzero_terms(func.terms.as_slice())
}

// How many of the terms are not zero.
fn nonzero_terms(terms: &[NamedTerm]) -> u64
    ensures value { result ≡ count_by (λ t. not (rational_eq t.coefficient zero_ℚ)) terms.now }
    ensures fits { result ≤ 2 ^ 63 }
{
    let mut count = 0;
    for term in terms {
        if is_counted(term) {
            count += 1;
        }
    }
    count
}

// Whether the term is one of the function's.
fn is_counted(term: &NamedTerm) -> bool
    ensures { result ≡ not (rational_eq term.now.coefficient zero_ℚ) }
{
    term.coefficient != Ratio::zero()
}

/// How many terms all components of a function by name have, or the refusal for the first that has
/// more than it may.
pub(crate) fn terms_within(func: &NamedFunc) -> Result<u64, Refusal>
    requires { named_components func.now ≤ limits.COMPONENTS }
    ensures value { (model : ModelValue) → IsConsistent model → IsKnown model func.now
        → MatchResult result
        (λ terms. (first_of (map full_at
        (within limits.TERMS (term_counts (located model func.now)))) ≡ None)
        × (terms ≡ sum (term_counts (located model func.now))))
        (λ refusal. first_of (map full_at
        (within limits.TERMS (term_counts (located model func.now)))) ≡ Some refusal) }
    ensures fits { IfOk result (λ terms. terms ≤ 2 ^ 24) }
{
    match func {
        NamedFunc::Plain(_) | NamedFunc::PlainVec(_) => Ok(0),
        NamedFunc::Affine(func) => add_terms(0, named_terms(func)),
        NamedFunc::AffineVec(funcs) => vec_terms_within(funcs),
    }
}

// The same for its components.
fn vec_terms_within(funcs: &NamedVec) -> Result<u64, Refusal>
    requires { length funcs.now ≤ limits.COMPONENTS }
    ensures value { (model : ModelValue) → IsConsistent model
        → IsKnown model (NamedFunc.AffineVec funcs.now) → MatchResult result
        (λ terms. (first_of (map full_at
        (within limits.TERMS (map term_count (map (affine model) funcs.now)))) ≡ None)
        × (terms ≡ sum (map term_count (map (affine model) funcs.now))))
        (λ refusal. first_of (map full_at
        (within limits.TERMS (map term_count (map (affine model) funcs.now)))) ≡ Some refusal) }
    ensures fits { IfOk result (λ terms. terms ≤ 2 ^ 24) }
{
    let mut all = 0;
    for place in 0..funcs.len() {
        if let Some(func) = funcs.get(place) {
            all = add_terms(all, named_terms(func))?;
        }
    }
    Ok(all)
}

// The sum with these terms more, or the refusal where they are more than they may.
fn add_terms(all: u64, terms: u64) -> Result<u64, Refusal>
    requires { all ≤ 2 ^ 24 }
    ensures { MatchResult result (λ sum. (terms ≤ limits.TERMS) × (sum ≡ all + terms))
        (λ refusal. Some refusal ≡ first_of (map full_at ((terms, limits.TERMS) ∷ []))) }
{
    if TERMS < terms {
        return Err(Refusal::Full {
            count: terms,
            limit: TERMS,
        });
    }
    Ok(all + terms)
}

/// How many terms the function has with this coefficient at the address, where 0 removes the term.
pub(crate) fn terms_with(func: &Aff, at: &Address, value: &Ratio) -> u64
    ensures value { result ≡ term_count (with_coefficient func.now at.now value.now) }
    ensures fits { result ≤ 2 ^ 63 }
{
    let others = func.terms().len() as u64 - u64::from(func.mentions(at));
    others + u64::from(!value.is_zero())
}

/// The refusal for the first component with more terms than it may have, where the one at a place
/// is given a coefficient.
pub(crate) fn first_full_component(
    funcs: &[Aff],
    place: usize,
    at: &Address,
    value: &Ratio,
) -> Option<Refusal>
    ensures { result ≡ first_of (map full_at
        (within limits.TERMS (map term_count
        (changed_at place (λ f. with_coefficient f at.now value.now) funcs.now)))) }
{
    for index in 0..funcs.len() {
        let count = component_terms(funcs, place, at, value, index);
        if TERMS < count {
            return Some(Refusal::Full {
                count,
                limit: TERMS,
            });
        }
    }
    None
}

// The number of terms of the component at an index, where the one at a place is given a
// coefficient.
fn component_terms(funcs: &[Aff], place: usize, at: &Address, value: &Ratio, index: usize) -> u64
    requires { index < length funcs.now }
    ensures { slice_get
        (map term_count (changed_at place (λ f. with_coefficient f at.now value.now) funcs.now))
        index ≡ Some result }
{
    let func = &funcs[index];
    if index == place {
        terms_with(func, at, value)
    } else {
        func.terms().len() as u64
    }
}
