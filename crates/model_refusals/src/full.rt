//! The first count of a model that would pass its limit after an edit, which is not made for it.
ghost use Rattle.std.specs.Prelude.{◌≡◌, ◌+◌, ◌-◌, ◌≤◌, ◌^◌, ℕ, List, ◌∷◌, [], map};
ghost use Rattle.aff_core.specs.Function.{with_coefficient};
ghost use Rattle.user_model.specs.Consistent.{IsConsistent, IsWithinLimits};
ghost use Rattle.user_model.specs.Functions.{term_count};
ghost use Rattle.user_model.specs.Limits as limits;
ghost use Rattle.user_model.specs.Model as models;
ghost use Rattle.user_model.specs.Refusals.{IsKnown, counts, first_of, full_at};
ghost use Rattle.user_model.specs.declared.edit.Edit.TheVariants as edit;
ghost use Rattle.aff_core.specs.declared.sense.Sense.{Sense};
ghost use Rattle.set_core.specs.declared.set.Set.{Set};
ghost use Rattle.model_refusals.specs.Changes.{with_change, with_change_at};

use crate::Component;
use crate::counted::{first_full_component, named_terms, terms_with, terms_within};
use crate::limits::{ALL_TERMS, COMPONENTS, LAST_NUMBER, ROWS, TERMS, VARIABLES, first_passed};
use crate::shapes::named_components;
use aff_core::{Address, Aff};
use model_catalog::Catalog;
use name_index::Names;
use ratio_core::Ratio;
use user_model::{NamedFunc, Refusal};

/// The refusal where these variables are new.
pub(crate) fn full_by_group(model: &Catalog, names: &Names) -> Option<Refusal>
    requires { IsWithinLimits model.now.model }
    ensures { (set : Set) → result ≡ first_of
        (map full_at (counts model.now.model (edit.AddGroup names.now set))) }
{
    let added = names.len() as u64;
    if COMPONENTS < added {
        return Some(Refusal::Full {
            count: added,
            limit: COMPONENTS,
        });
    }
    let next = model.next();
    first_passed(&[
        (model.variable_count() as u64 + added, VARIABLES),
        (u64::from(next.group), LAST_NUMBER),
        (
            (u64::from(next.variable) + added).saturating_sub(1),
            LAST_NUMBER,
        ),
    ])
}

/// The refusal where a row of this function is new.
pub(crate) fn full_by_row(model: &Catalog, func: &NamedFunc) -> Option<Refusal>
    requires consistent { IsConsistent model.now.model }
    requires within { IsWithinLimits model.now.model }
    requires known { IsKnown model.now.model func.now }
    ensures { (name : List ℕ) (set : Set)
        → result ≡ first_of (map full_at (counts model.now.model (edit.AddRow name func.now set))) }
{
    let components = named_components(func) as u64;
    if COMPONENTS < components {
        return Some(Refusal::Full {
            count: components,
            limit: COMPONENTS,
        });
    }
    match terms_within(func) {
        Err(refusal) => Some(refusal),
        Ok(terms) => first_passed(&[
            (model.rows().len() as u64 + 1, ROWS),
            (model.term_count() + terms, ALL_TERMS),
            (u64::from(model.next().row), LAST_NUMBER),
        ]),
    }
}

/// The refusal where this function is the objective.
pub(crate) fn full_by_objective(model: &Catalog, func: &NamedFunc) -> Option<Refusal>
    requires consistent { IsConsistent model.now.model }
    requires within { IsWithinLimits model.now.model }
    requires known { IsKnown model.now.model func.now }
    ensures { (sense : Sense) → result ≡ first_of
        (map full_at (counts model.now.model (edit.Objective sense func.now))) }
{
    let old = model.objective().term_count();
    match func {
        NamedFunc::Affine(func) => full_by_terms(model, old, named_terms(func)),
        NamedFunc::Plain(_) | NamedFunc::PlainVec(_) | NamedFunc::AffineVec(_) => {
            full_by_total(model, old, 0)
        }
    }
}

/// The refusal where a component of a row is given this coefficient.
pub(crate) fn full_by_component(
    model: &Catalog,
    component: &Component,
    at: &Address,
    value: &Ratio,
) -> Option<Refusal>
    requires within { IsWithinLimits model.now.model }
    requires part { term_count component.now.func.now ≤ models.total_terms model.now.model }
    ensures { result ≡ first_of (map full_at
        (with_change_at (models.total_terms model.now.model) component.now.funcs.now
        component.now.place component.now.func.now
        (λ f. with_coefficient f at.now value.now))) }
{
    let passed = first_full_component(component.funcs.as_slice(), component.place, at, value);
    if passed.is_some() {
        return passed;
    }
    full_by_total(
        model,
        component.func.terms().len() as u64,
        terms_with(component.func, at, value),
    )
}

/// The refusal where a function of the model is given this coefficient.
pub(crate) fn full_by_change(
    model: &Catalog,
    func: &Aff,
    at: &Address,
    value: &Ratio,
) -> Option<Refusal>
    requires within { IsWithinLimits model.now.model }
    requires part { term_count func.now ≤ models.total_terms model.now.model }
    ensures { result ≡ first_of (map full_at
        (with_change (models.total_terms model.now.model) (term_count func.now)
        (term_count (with_coefficient func.now at.now value.now)))) }
{
    full_by_terms(
        model,
        func.terms().len() as u64,
        terms_with(func, at, value),
    )
}

// The refusal where a function has `new` terms after the edit and had `old` before.
fn full_by_terms(model: &Catalog, old: u64, new: u64) -> Option<Refusal>
    requires within { IsWithinLimits model.now.model }
    requires part { old ≤ models.total_terms model.now.model }
    requires fits { new ≤ 2 ^ 63 }
    ensures { result ≡ first_of (map full_at
        (with_change (models.total_terms model.now.model) old new)) }
{
    if TERMS < new {
        return Some(Refusal::Full {
            count: new,
            limit: TERMS,
        });
    }
    full_by_total(model, old, new)
}

// The same where the function may have this number of terms.
fn full_by_total(model: &Catalog, old: u64, new: u64) -> Option<Refusal>
    requires within { IsWithinLimits model.now.model }
    requires part { old ≤ models.total_terms model.now.model }
    requires fits { new ≤ 2 ^ 63 }
    ensures { result ≡ first_of (map full_at
        (((models.total_terms model.now.model) - old + new, limits.ALL_TERMS) ∷ [])) }
{
    first_passed(&[(model.term_count() - old + new, ALL_TERMS)])
}
