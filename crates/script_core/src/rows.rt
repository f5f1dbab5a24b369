//! Lines that add rows or replace the objective.
ghost use Rattle.std.specs.Prelude.{◌≡◌, IfOk};
ghost use Rattle.script_core.specs.Rows.{bound_form, objective_form, objective_variable_form, row_form, vector_bound_form, vector_row_form};

use crate::function::{sum_components, sum_terms};
use crate::names::{last_name, read_names};
use crate::reading::{LineReading, makes};
use crate::sets::{dimension, last_named_relation, relation, vector_set};
use crate::terms::{component_terms, function_terms, read_terms};
use name_index::Name;
use ratio_core::Memory;
use script_tokens::Tokens;
use std::alloc::Global;
use user_model::{Edit, NamedFunc, Sense};

/// `bound R X REL`
#[tactic(auto, unfolding(crate::specs::Rows::bound_form))]
pub fn bound(alloc: Global, mut tokens: Tokens<'_>) -> Result<Option<LineReading>, Memory>
    ensures { IfOk result (λ reading. reading ≡ bound_form tokens.entry) }
{
    let Some(name) = tokens.next() else {
        return Ok(None);
    };
    let Some(name) = Name::unescape(alloc, name)? else {
        return Ok(None);
    };
    let Some((variable, set)) = last_named_relation(alloc, tokens)? else {
        return Ok(None);
    };
    let func = NamedFunc::Plain(variable);
    Ok(makes(Edit::AddRow { name, func, set }))
}

/// `row R REL : TERMS`
#[tactic(auto, unfolding(crate::specs::Rows::row_form))]
pub fn row(alloc: Global, mut tokens: Tokens<'_>) -> Result<Option<LineReading>, Memory>
    ensures { IfOk result (λ reading. reading ≡ row_form tokens.entry) }
{
    let (Some(name), Some(word)) = (tokens.next(), tokens.next()) else {
        return Ok(None);
    };
    let Some(name) = Name::unescape(alloc, name)? else {
        return Ok(None);
    };
    let Some(set) = relation(word, &mut tokens) else {
        return Ok(None);
    };
    let Some(terms) = function_terms(alloc, tokens)? else {
        return Ok(None);
    };
    let Some(function) = sum_terms(alloc, terms)? else {
        return Ok(Some(LineReading::Overflow));
    };
    let func = NamedFunc::Affine(function);
    Ok(makes(Edit::AddRow { name, func, set }))
}

/// `vbound R SET NAMES`
#[tactic(auto, unfolding(crate::specs::Rows::vector_bound_form))]
pub fn vector_bound(alloc: Global, mut tokens: Tokens<'_>) -> Result<Option<LineReading>, Memory>
    ensures { IfOk result (λ reading. reading ≡ vector_bound_form tokens.entry) }
{
    let (Some(name), Some(word)) = (tokens.next(), tokens.next()) else {
        return Ok(None);
    };
    let Some(name) = Name::unescape(alloc, name)? else {
        return Ok(None);
    };
    let Some(variables) = read_names(alloc, tokens)? else {
        return Ok(None);
    };
    let Some(set) = vector_set(word, dimension(variables.len())?) else {
        return Ok(None);
    };
    let func = NamedFunc::PlainVec(variables);
    Ok(makes(Edit::AddRow { name, func, set }))
}

/// `vrow R SET : TERMS ; TERMS ..`
#[tactic(auto, unfolding(crate::specs::Rows::vector_row_form))]
pub fn vector_row(alloc: Global, mut tokens: Tokens<'_>) -> Result<Option<LineReading>, Memory>
    ensures { IfOk result (λ reading. reading ≡ vector_row_form tokens.entry) }
{
    let (Some(name), Some(word)) = (tokens.next(), tokens.next()) else {
        return Ok(None);
    };
    let Some(name) = Name::unescape(alloc, name)? else {
        return Ok(None);
    };
    let Some(components) = component_terms(alloc, tokens)? else {
        return Ok(None);
    };
    let Some(set) = vector_set(word, dimension(components.len())?) else {
        return Ok(None);
    };
    let Some(functions) = sum_components(alloc, components)? else {
        return Ok(Some(LineReading::Overflow));
    };
    let func = NamedFunc::AffineVec(functions);
    Ok(makes(Edit::AddRow { name, func, set }))
}

/// `min TERMS`, `max TERMS`
#[tactic(auto, unfolding(crate::specs::Rows::objective_form))]
pub fn objective(
    alloc: Global,
    sense: Sense,
    tokens: Tokens<'_>,
) -> Result<Option<LineReading>, Memory>
    ensures { IfOk result (λ reading. reading ≡ objective_form sense tokens.entry) }
{
    let Some(terms) = read_terms(alloc, tokens)? else {
        return Ok(None);
    };
    let Some(function) = sum_terms(alloc, terms)? else {
        return Ok(Some(LineReading::Overflow));
    };
    let func = NamedFunc::Affine(function);
    Ok(makes(Edit::Objective { sense, func }))
}

/// `minvar X`, `maxvar X`
#[tactic(auto, unfolding(crate::specs::Rows::objective_variable_form))]
pub fn objective_variable(
    alloc: Global,
    sense: Sense,
    tokens: Tokens<'_>,
) -> Result<Option<LineReading>, Memory>
    ensures { IfOk result (λ reading. reading ≡ objective_variable_form sense tokens.entry) }
{
    let Some(variable) = last_name(alloc, tokens)? else {
        return Ok(None);
    };
    let func = NamedFunc::Plain(variable);
    Ok(makes(Edit::Objective { sense, func }))
}
