//! Edits of the objective: what they find, or their first refusal.
ghost use Rattle.user_model.specs.declared.edit.Edit.TheVariants as edit;
ghost use Rattle.user_model.specs.Consistent.{IsConsistent, IsWithinLimits};
ghost use Rattle.model_refusals.specs.Accepted.{IsEditAnswer};

use crate::AcceptedEdit;
use crate::full::{full_by_change, full_by_objective};
use crate::lookups::{has_unknown, variable_named};
use crate::shapes::is_scalar_named;
use model_catalog::Catalog;
use name_index::Name;
use ratio_core::Ratio;
use user_model::{NamedFunc, Objective, Refusal, Sense};

/// The objective of a scalar function.
#[tactic(auto, unfolding(user_model::specs::Refusals::first_refusal))]
pub(crate) fn set<'a>(
    model: &'a Catalog,
    sense: Sense,
    func: &'a NamedFunc,
) -> Result<AcceptedEdit<'a>, Refusal>
    requires consistent { IsConsistent model.now.model }
    requires within { IsWithinLimits model.now.model }
    ensures { IsEditAnswer model.now.model (edit.Objective sense func.now) result }
{
    if has_unknown(model, func) {
        return Err(Refusal::UnknownName);
    }
    if !is_scalar_named(func) {
        return Err(Refusal::FunctionShape);
    }
    match full_by_objective(model, func) {
        Some(refusal) => Err(refusal),
        None => Ok(AcceptedEdit::Objective { sense, func }),
    }
}

/// Another coefficient of the affine objective.
#[tactic(auto, unfolding(user_model::specs::Refusals::first_refusal))]
pub(crate) fn coef<'a>(
    model: &'a Catalog,
    var: &'a Name,
    value: &Ratio,
) -> Result<AcceptedEdit<'a>, Refusal>
    requires { IsWithinLimits model.now.model }
    ensures { IsEditAnswer model.now.model (edit.ObjCoef var.now value.now) result }
{
    let var = variable_named(model, var)?;
    let Objective::Affine { sense, func } = model.objective() else {
        return Err(Refusal::FunctionShape);
    };
    match full_by_change(model, func, &var.address(), value) {
        Some(refusal) => Err(refusal),
        None => Ok(AcceptedEdit::ObjCoef {
            sense: *sense,
            func,
            var,
            value: *value,
        }),
    }
}

/// Another constant of the affine objective.
#[tactic(auto, unfolding(user_model::specs::Refusals::first_refusal))]
pub(crate) fn constant<'a>(model: &'a Catalog, value: &Ratio) -> Result<AcceptedEdit<'a>, Refusal>
    ensures { IsEditAnswer model.now.model (edit.ObjConstant value.now) result }
{
    let Objective::Affine { sense, func } = model.objective() else {
        return Err(Refusal::FunctionShape);
    };
    Ok(AcceptedEdit::ObjConstant {
        sense: *sense,
        func,
        value: *value,
    })
}
