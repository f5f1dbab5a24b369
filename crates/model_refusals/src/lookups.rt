//! What stands at the names of an edit.
ghost use Rattle.std.specs.Prelude.{◌≡◌, MatchResult, None, not, map};
ghost use Rattle.std.specs.List.{list_any};
ghost use Rattle.user_model.specs.Functions.{mentioned};
ghost use Rattle.user_model.specs.Model.{row_named, variable_named};
ghost use Rattle.user_model.specs.declared.refusal.Refusal.TheVariants.{UnknownName};
ghost use Rattle.user_model.specs.Refusals.{has_row_named, has_variable_named};
ghost use Rattle.model_refusals.specs.Accepted.{IsGroupedVariable, IsModelRow, IsModelVariable};

use crate::{GroupedVariable, NamedRow, NamedVariable};
use model_catalog::Catalog;
use name_index::{Name, Names};
use named_aff::{NamedTerm, NamedVec};
use user_model::{NamedFunc, Refusal};

/// The row with a name.
pub(crate) fn row_named<'a>(model: &'a Catalog, name: &'a Name) -> Result<NamedRow<'a>, Refusal>
    ensures { MatchResult result
        (λ row. (row.name.now ≡ name.now) × IsModelRow model.now.model row)
        (λ refusal. (refusal ≡ UnknownName) × (row_named model.now.model name.now ≡ None)) }
{
    let Some(row) = model.row(name) else {
        return Err(Refusal::UnknownName);
    };
    Ok(NamedRow { name, row })
}

/// The number of the variable with a name.
pub(crate) fn variable_named<'a>(
    model: &Catalog,
    name: &'a Name,
) -> Result<NamedVariable<'a>, Refusal>
    ensures { MatchResult result
        (λ var. (var.name.now ≡ name.now) × IsModelVariable model.now.model var)
        (λ refusal. (refusal ≡ UnknownName) × (variable_named model.now.model name.now ≡ None)) }
{
    let Some(number) = model.variable(name) else {
        return Err(Refusal::UnknownName);
    };
    Ok(NamedVariable { name, number })
}

/// The variable with a name, and its group.
pub(crate) fn grouped_variable<'a>(
    model: &'a Catalog,
    name: &'a Name,
) -> Result<GroupedVariable<'a>, Refusal>
    ensures { MatchResult result
        (λ var. (var.name.now ≡ name.now) × IsGroupedVariable model.now.model var)
        (λ refusal. (refusal ≡ UnknownName) × (variable_named model.now.model name.now ≡ None)) }
{
    let found = variable_named(model, name)?;
    let Some(group) = model.group_of(found.number) else {
        return Err(Refusal::UnknownName);
    };
    Ok(GroupedVariable {
        name,
        number: found.number,
        group,
    })
}

pub(crate) fn has_variable(model: &Catalog, name: &Name) -> bool
    ensures { result ≡ has_variable_named model.now.model name.now }
{
    model.variable(name).is_some()
}

pub(crate) fn has_row(model: &Catalog, name: &Name) -> bool
    ensures { result ≡ has_row_named model.now.model name.now }
{
    model.row(name).is_some()
}

/// Whether the function is on a variable that isn't there.
pub(crate) fn has_unknown(model: &Catalog, func: &NamedFunc) -> bool
    ensures { result ≡ list_any (λ name. not (has_variable_named model.now.model name))
        (mentioned func.now) }
{
    match func {
        NamedFunc::Plain(var) => !has_variable(model, var),
        NamedFunc::Affine(func) => has_unknown_term(model, func.terms.as_slice()),
        NamedFunc::PlainVec(vars) => has_unknown_name(model, vars),
        NamedFunc::AffineVec(funcs) => has_unknown_component(model, funcs),
    }
}

fn has_unknown_term(model: &Catalog, terms: &[NamedTerm]) -> bool
    ensures { result ≡ list_any (λ name. not (has_variable_named model.now.model name))
        (map (λ t. t.variable) terms.now) }
{
    for term in terms {
        if !has_variable(model, &term.variable) {
            return true;
        }
    }
    false
}

fn has_unknown_name(model: &Catalog, names: &Names) -> bool
    ensures { result ≡ list_any (λ name. not (has_variable_named model.now.model name)) names.now }
{
    for place in 0..names.len() {
        if let Some(name) = names.get(place) {
            if !has_variable(model, name) {
                return true;
            }
        }
    }
    false
}

fn has_unknown_component(model: &Catalog, funcs: &NamedVec) -> bool
    ensures { result ≡ list_any (λ name. not (has_variable_named model.now.model name))
        (mentioned (NamedFunc.AffineVec funcs.now)) }
{
    for place in 0..funcs.len() {
        if let Some(func) = funcs.get(place) {
            if has_unknown_term(model, func.terms.as_slice()) {
                return true;
            }
        }
    }
    false
}

/// Whether one of the names is a variable's.
pub(crate) fn has_known(model: &Catalog, names: &Names) -> bool
    ensures { result ≡ list_any (has_variable_named model.now.model) names.now }
{
    for place in 0..names.len() {
        if let Some(name) = names.get(place) {
            if has_variable(model, name) {
                return true;
            }
        }
    }
    false
}
