//! Edits of groups and of their variables: what they find, or their first refusal.
ghost use Rattle.user_model.specs.declared.edit.Edit.TheVariants as edit;
ghost use Rattle.user_model.specs.Consistent.{IsWithinLimits};
ghost use Rattle.model_refusals.specs.Accepted.{IsEditAnswer};

use crate::AcceptedEdit;
use crate::bounds::is_in_cone;
use crate::full::full_by_group;
use crate::lookups::{grouped_variable, has_known, has_variable};
use crate::shapes::is_scalar_for_others;
use crate::twins::has_twins;
use model_catalog::Catalog;
use name_index::{Name, Names};
use set_core::Set;
use user_model::Refusal;

/// A new group.
#[tactic(auto, unfolding(user_model::specs::Refusals::first_refusal))]
pub(crate) fn add<'a>(
    model: &'a Catalog,
    names: &'a Names,
    set: &'a Set,
) -> Result<AcceptedEdit<'a>, Refusal>
    requires { IsWithinLimits model.now.model }
    ensures { IsEditAnswer model.now.model (edit.AddGroup names.now set.now) result }
{
    if has_known(model, names) || has_twins(names) {
        return Err(Refusal::NameTaken);
    }
    if is_scalar_for_others(set, names.len()) {
        return Err(Refusal::FunctionShape);
    }
    if set.has_bad_dimension(names.len()) {
        return Err(Refusal::BadDimension);
    }
    if set.is_crossed() {
        return Err(Refusal::BadInterval);
    }
    match full_by_group(model, names) {
        Some(refusal) => Err(refusal),
        None => Ok(AcceptedEdit::AddGroup { names, set }),
    }
}

/// Another creation set of a group of one variable.
#[tactic(auto, unfolding(user_model::specs::Refusals::first_refusal))]
pub(crate) fn reset<'a>(
    model: &'a Catalog,
    var: &'a Name,
    set: &'a Set,
) -> Result<AcceptedEdit<'a>, Refusal>
    ensures { IsEditAnswer model.now.model (edit.Reset var.now set.now) result }
{
    let var = grouped_variable(model, var)?;
    if !set.is_scalar() || !var.group.set.is_scalar() {
        return Err(Refusal::FunctionShape);
    }
    if set.is_crossed() {
        return Err(Refusal::BadInterval);
    }
    if !var.group.set.has_type_of(set) {
        return Err(Refusal::SetTypeMismatch);
    }
    Ok(AcceptedEdit::Reset { var, set })
}

/// A group of one variable becomes free.
#[tactic(auto, unfolding(user_model::specs::Refusals::first_refusal))]
pub(crate) fn free<'a>(model: &'a Catalog, var: &'a Name) -> Result<AcceptedEdit<'a>, Refusal>
    ensures { IsEditAnswer model.now.model (edit.FreeGroup var.now) result }
{
    let var = grouped_variable(model, var)?;
    if !var.group.set.is_scalar() {
        return Err(Refusal::FunctionShape);
    }
    Ok(AcceptedEdit::FreeGroup { var })
}

/// A variable goes.
#[tactic(auto, unfolding(user_model::specs::Refusals::first_refusal))]
pub(crate) fn delete_variable<'a>(
    model: &'a Catalog,
    var: &'a Name,
) -> Result<AcceptedEdit<'a>, Refusal>
    ensures { IsEditAnswer model.now.model (edit.DeleteVariable var.now) result }
{
    let var = grouped_variable(model, var)?;
    if is_in_cone(model, &var) {
        return Err(Refusal::DeleteNotAllowed);
    }
    Ok(AcceptedEdit::DeleteVariable { var })
}

/// Another name of a variable.
#[tactic(auto, unfolding(user_model::specs::Refusals::first_refusal))]
pub(crate) fn rename_variable<'a>(
    model: &'a Catalog,
    old: &'a Name,
    new: &'a Name,
) -> Result<AcceptedEdit<'a>, Refusal>
    ensures { IsEditAnswer model.now.model (edit.RenameVariable old.now new.now) result }
{
    let var = grouped_variable(model, old)?;
    if has_variable(model, new) {
        return Err(Refusal::NameTaken);
    }
    Ok(AcceptedEdit::RenameVariable { var, new })
}
