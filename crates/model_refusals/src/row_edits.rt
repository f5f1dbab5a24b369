//! Edits of rows: what they find, or their first refusal.
ghost use Rattle.user_model.specs.declared.edit.Edit.TheVariants as edit;
ghost use Rattle.user_model.specs.Consistent.{IsConsistent, IsWithinLimits};
ghost use Rattle.model_refusals.specs.Accepted.{IsEditAnswer};

use crate::AcceptedEdit;
use crate::bounds::bound_already_set;
use crate::full::{full_by_change, full_by_component, full_by_row};
use crate::lookups::{has_row, has_unknown, row_named, variable_named};
use crate::shapes::{
    component, components, differ, is_scalar_function, is_scalar_named, named_components,
};
use model_catalog::Catalog;
use name_index::Name;
use ratio_core::Ratio;
use set_core::Set;
use user_model::{NamedFunc, Refusal, UserFunc};

/// A new row.
#[tactic(auto, unfolding(user_model::specs::Refusals::first_refusal))]
pub(crate) fn add<'a>(
    model: &'a Catalog,
    name: &'a Name,
    func: &'a NamedFunc,
    set: &'a Set,
) -> Result<AcceptedEdit<'a>, Refusal>
    requires consistent { IsConsistent model.now.model }
    requires within { IsWithinLimits model.now.model }
    ensures { IsEditAnswer model.now.model (edit.AddRow name.now func.now set.now) result }
{
    if has_unknown(model, func) {
        return Err(Refusal::UnknownName);
    }
    if has_row(model, name) {
        return Err(Refusal::NameTaken);
    }
    if differ(is_scalar_named(func), set.is_scalar()) {
        return Err(Refusal::FunctionShape);
    }
    if set.has_bad_dimension(named_components(func)) {
        return Err(Refusal::BadDimension);
    }
    if set.is_crossed() {
        return Err(Refusal::BadInterval);
    }
    if let Some(refusal) = bound_already_set(model, func, set) {
        return Err(refusal);
    }
    match full_by_row(model, func) {
        Some(refusal) => Err(refusal),
        None => Ok(AcceptedEdit::AddRow { name, func, set }),
    }
}

/// Another coefficient of a scalar affine row.
#[tactic(auto, unfolding(user_model::specs::Refusals::first_refusal))]
pub(crate) fn coef<'a>(
    model: &'a Catalog,
    row: &'a Name,
    var: &'a Name,
    value: &Ratio,
) -> Result<AcceptedEdit<'a>, Refusal>
    requires consistent { IsConsistent model.now.model }
    requires within { IsWithinLimits model.now.model }
    ensures { IsEditAnswer model.now.model (edit.Coef row.now var.now value.now) result }
{
    let var = variable_named(model, var)?;
    let row = row_named(model, row)?;
    let UserFunc::Affine(func) = &row.row.func else {
        return Err(Refusal::FunctionShape);
    };
    match full_by_change(model, func, &var.address(), value) {
        Some(refusal) => Err(refusal),
        None => Ok(AcceptedEdit::Coef {
            row,
            func,
            var,
            value: *value,
        }),
    }
}

/// Another constant of a scalar affine row.
#[tactic(auto, unfolding(user_model::specs::Refusals::first_refusal))]
pub(crate) fn constant<'a>(
    model: &'a Catalog,
    row: &'a Name,
    value: &Ratio,
) -> Result<AcceptedEdit<'a>, Refusal>
    ensures { IsEditAnswer model.now.model (edit.Constant row.now value.now) result }
{
    let row = row_named(model, row)?;
    let UserFunc::Affine(func) = &row.row.func else {
        return Err(Refusal::FunctionShape);
    };
    Ok(AcceptedEdit::Constant {
        row,
        func,
        value: *value,
    })
}

/// Another coefficient of a component of a vector affine row.
#[tactic(auto, unfolding(user_model::specs::Refusals::first_refusal))]
pub(crate) fn vec_coef<'a>(
    model: &'a Catalog,
    row: &'a Name,
    output: u32,
    var: &'a Name,
    value: &Ratio,
) -> Result<AcceptedEdit<'a>, Refusal>
    requires consistent { IsConsistent model.now.model }
    requires within { IsWithinLimits model.now.model }
    ensures { IsEditAnswer model.now.model (edit.VecCoef row.now output var.now value.now) result }
{
    let var = variable_named(model, var)?;
    let row = row_named(model, row)?;
    let UserFunc::AffineVec(funcs) = &row.row.func else {
        return Err(Refusal::FunctionShape);
    };
    let Some(component) = component(funcs, output) else {
        return Err(Refusal::OutputIndex);
    };
    match full_by_component(model, &component, &var.address(), value) {
        Some(refusal) => Err(refusal),
        None => Ok(AcceptedEdit::VecCoef {
            row,
            output,
            component,
            var,
            value: *value,
        }),
    }
}

/// Another constant of a component of a vector affine row.
#[tactic(auto, unfolding(user_model::specs::Refusals::first_refusal))]
pub(crate) fn vec_constant<'a>(
    model: &'a Catalog,
    row: &'a Name,
    output: u32,
    value: &Ratio,
) -> Result<AcceptedEdit<'a>, Refusal>
    ensures { IsEditAnswer model.now.model (edit.VecConstant row.now output value.now) result }
{
    let row = row_named(model, row)?;
    let UserFunc::AffineVec(funcs) = &row.row.func else {
        return Err(Refusal::FunctionShape);
    };
    let Some(component) = component(funcs, output) else {
        return Err(Refusal::OutputIndex);
    };
    Ok(AcceptedEdit::VecConstant {
        row,
        output,
        component,
        value: *value,
    })
}

/// Another set of a row.
#[tactic(auto, unfolding(user_model::specs::Refusals::first_refusal))]
pub(crate) fn set<'a>(
    model: &'a Catalog,
    row: &'a Name,
    set: &'a Set,
) -> Result<AcceptedEdit<'a>, Refusal>
    ensures { IsEditAnswer model.now.model (edit.RowSet row.now set.now) result }
{
    let row = row_named(model, row)?;
    if differ(is_scalar_function(&row.row.func), set.is_scalar()) {
        return Err(Refusal::FunctionShape);
    }
    if set.has_bad_dimension(components(&row.row.func)) {
        return Err(Refusal::BadDimension);
    }
    if set.is_crossed() {
        return Err(Refusal::BadInterval);
    }
    if !row.row.set.has_type_of(set) {
        return Err(Refusal::SetTypeMismatch);
    }
    Ok(AcceptedEdit::RowSet { row, set })
}

/// A row goes.
#[tactic(auto, unfolding(user_model::specs::Refusals::first_refusal))]
pub(crate) fn delete<'a>(model: &'a Catalog, row: &'a Name) -> Result<AcceptedEdit<'a>, Refusal>
    ensures { IsEditAnswer model.now.model (edit.DeleteRow row.now) result }
{
    let row = row_named(model, row)?;
    Ok(AcceptedEdit::DeleteRow { row })
}

/// Another name of a row.
#[tactic(auto, unfolding(user_model::specs::Refusals::first_refusal))]
pub(crate) fn rename<'a>(
    model: &'a Catalog,
    old: &'a Name,
    new: &'a Name,
) -> Result<AcceptedEdit<'a>, Refusal>
    ensures { IsEditAnswer model.now.model (edit.RenameRow old.now new.now) result }
{
    let row = row_named(model, old)?;
    if has_row(model, new) {
        return Err(Refusal::NameTaken);
    }
    Ok(AcceptedEdit::RenameRow { row, new })
}
