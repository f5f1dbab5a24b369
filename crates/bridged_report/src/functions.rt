//! Functions of leaf variables.
ghost use Rattle.std.specs.Prelude.{◌≡◌, ◌++◌, IfOk, OnOk, filter_map, flat_map, map};
ghost use Rattle.report_core.specs.Words.{spaced};
ghost use Rattle.bridged_report.specs.Functions.{components_text, constant_texts, function_text, parted, term_text};
ghost use Rattle.bridged_report.specs.Indexed.{address_of, function_in, function_text_in, index_text, term_in};

use crate::addresses::push_address;
use address_map::AddressMap;
use aff_core::{Address, Aff};
use model_store::UserModel;
use ratio_core::{Memory, Ratio};
use report_core::Draft;
use solver_store::SolverAff;
use std::alloc::Global;

// The address that has an index.
fn address_of(places: &AddressMap, i: usize) -> Option<Address>
    ensures { result ≡ address_of places.now.vars.indices i }
{
    places.var_at(i)
}

fn named_term(places: &AddressMap, term: &(usize, Ratio)) -> Option<(Address, Ratio)>
    ensures { result ≡ term_in places.now.vars.indices term.now }
{
    let (i, coefficient) = *term;
    let at = address_of(places, i)?;
    Some((at, coefficient))
}

fn named_terms(
    alloc: Global,
    places: &AddressMap,
    terms: &[(usize, Ratio)],
) -> Result<Vec<(Address, Ratio)>, Memory>
    ensures { IfOk result (λ named.
        named.items ≡ filter_map (term_in places.now.vars.indices) terms.now) }
{
    Ok(
        terms
            .iter()
            .filter_map(|term| named_term(places, term))
            .collect(alloc)?,
    )
}

// The function of the addresses that have its indices.
fn named(alloc: Global, places: &AddressMap, func: &SolverAff) -> Result<Aff, Memory>
    ensures { IfOk result (λ f. f ≡ function_in places.now.vars.indices func.now) }
{
    let terms = named_terms(alloc, places, func.terms())?;
    Aff::gather(alloc, &terms, func.constant())
}

/// The variable that has an index.
pub(crate) fn push_index(
    draft: &mut Draft,
    places: &AddressMap,
    model: &UserModel,
    i: usize,
) -> Result<(), Memory>
    ensures { OnOk result (draft.new
        ≡ draft.old ++ index_text model.now.model places.now.vars.indices i) }
{
    match address_of(places, i) {
        Some(at) => push_address(draft, model, &at),
        None => Ok(()),
    }
}

/// A function of indices, by the addresses that have them.
pub(crate) fn push_function(
    draft: &mut Draft,
    alloc: Global,
    places: &AddressMap,
    model: &UserModel,
    func: &SolverAff,
) -> Result<(), Memory>
    ensures { OnOk result (draft.new
        ≡ draft.old ++ function_text_in model.now.model places.now.vars.indices func.now) }
{
    let func = named(alloc, places, func)?;
    push_named(draft, model, &func)
}

/// The components with a semicolon between each two.
pub(crate) fn push_components(
    draft: &mut Draft,
    alloc: Global,
    places: &AddressMap,
    model: &UserModel,
    components: &[SolverAff],
) -> Result<(), Memory>
    ensures { OnOk result (draft.new ≡ draft.old ++ components_text
        (map (function_text_in model.now.model places.now.vars.indices) components.now)) }
{
    match components {
        [] => Ok(()),
        [first, others @ ..] => {
            push_function(draft, alloc, places, model, first)?;
            push_further_components(draft, alloc, places, model, others)
        }
    }
}

// Each component after a semicolon.
fn push_further_components(
    draft: &mut Draft,
    alloc: Global,
    places: &AddressMap,
    model: &UserModel,
    components: &[SolverAff],
) -> Result<(), Memory>
    ensures { OnOk result (draft.new ≡ draft.old ++ flat_map parted
        (map (function_text_in model.now.model places.now.vars.indices) components.now)) }
{
    for component in components {
        draft.push(" ; ")?;
        push_function(draft, alloc, places, model, component)?;
    }
    Ok(())
}

// The terms in the order of their addresses, and the constant where it isn't 0 or stands alone.
fn push_named(draft: &mut Draft, model: &UserModel, function: &Aff) -> Result<(), Memory>
    ensures { OnOk result (draft.new
        ≡ draft.old ++ function_text model.now.model function.now) }
{
    let constant = function.constant();
    match function.terms().split_first() {
        None => draft.push_ratio(&constant),
        Some((first, rest)) => {
            push_term(draft, model, first)?;
            push_further_terms(draft, model, rest)?;
            push_further_constant(draft, &constant)
        }
    }
}

// Each term after a space.
fn push_further_terms(
    draft: &mut Draft,
    model: &UserModel,
    terms: &[(Address, Ratio)],
) -> Result<(), Memory>
    ensures { OnOk result (draft.new ≡ draft.old
        ++ flat_map spaced (map (term_text model.now.model) terms.now)) }
{
    for term in terms {
        draft.push(" ")?;
        push_term(draft, model, term)?;
    }
    Ok(())
}

// The constant after a space, where it isn't 0.
fn push_further_constant(draft: &mut Draft, constant: &Ratio) -> Result<(), Memory>
    ensures { OnOk result (draft.new ≡ draft.old ++ flat_map spaced (constant_texts constant.now)) }
{
    if constant.is_zero() {
        return Ok(());
    }
    draft.push(" ")?;
    draft.push_ratio(constant)
}

fn push_term(draft: &mut Draft, model: &UserModel, term: &(Address, Ratio)) -> Result<(), Memory>
    ensures { OnOk result (draft.new ≡ draft.old ++ term_text model.now.model term.now) }
{
    let (at, coefficient) = term;
    draft.push_ratio(coefficient)?;
    draft.push("*")?;
    push_address(draft, model, at)
}
