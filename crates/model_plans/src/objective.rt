//! Plans of the edits of the objective.
ghost use Rattle.std.specs.Prelude.{◌≡◌, ◌≢◌, IfOk, MatchBool};
ghost use Rattle.user_model.specs.Edited.{edited, objective_of, on_objective};
ghost use Rattle.user_model.specs.Consistent.{IsConsistent};
ghost use Rattle.user_model.specs.Refusals.{IsKnown};
ghost use Rattle.user_model.specs.declared.edit.Edit.TheVariants as edit;
ghost use Rattle.user_model.specs.declared.objective.Objective.TheVariants as objective;
ghost use Rattle.model_plans.specs.Plans.{Accepts, IsPart, LeadsToTarget, objective_edit, with_part};

use crate::located::{address_named, affine};
use crate::parts::{Part, replaced};
use crate::plan::EditPlan;
use aff_core::Aff;
use model_catalog::Catalog;
use ratio_core::{Memory, Ratio};
use std::alloc::Global;
use user_model::{NamedFunc, Objective, Sense};

/// The objective of a scalar function, which is rebuilt over the addresses of its variables.
#[tactic(auto, unfolding(user_model::specs::Edited::edited))]
pub(crate) fn set(
    alloc: Global,
    model: &Catalog,
    sense: Sense,
    func: &NamedFunc,
) -> Result<EditPlan, Memory>
    requires { Accepts model.now.model (edit.Objective sense func.now) }
    ensures { IfOk result (LeadsToTarget model.now.model
        (edited model.now.model (edit.Objective sense func.now))) }
{
    let objective = objective_of(alloc, model, sense, func)?;
    Ok(with_objective(alloc, model, objective))
}

fn objective_of(
    alloc: Global,
    model: &Catalog,
    sense: Sense,
    func: &NamedFunc,
) -> Result<Objective, Memory>
    requires consistent { IsConsistent model.now.model }
    requires known { IsKnown model.now.model func.now }
    ensures { IfOk result (λ objective. objective ≡ objective_of model.now.model sense func.now) }
{
    Ok(match func {
        NamedFunc::Plain(var) => Objective::Plain {
            sense,
            var: address_named(model, var),
        },
        NamedFunc::Affine(func) => Objective::Affine {
            sense,
            func: affine(alloc, model, func)?,
        },
        NamedFunc::PlainVec(_) | NamedFunc::AffineVec(_) => Objective::Feasibility,
    })
}

/// No objective. Nothing is copied.
#[tactic(auto, unfolding(user_model::specs::Edited::edited))]
pub(crate) fn feasibility(alloc: Global, model: &Catalog) -> EditPlan
    ensures { LeadsToTarget model.now.model (edited model.now.model edit.Feasibility) result }
{
    with_objective(alloc, model, Objective::Feasibility)
}

fn with_objective(alloc: Global, model: &Catalog, objective: Objective) -> EditPlan
    ensures { LeadsToTarget model.now.model
        (record model.now.model { objective = objective }) result }
{
    if same_objective(model.objective(), &objective) {
        return EditPlan::unchanged(alloc, model.next());
    }
    EditPlan::of_objective(alloc, Some(objective), model.next())
}

// Whether two objectives are the same.
fn same_objective(one: &Objective, other: &Objective) -> bool
    ensures { MatchBool result (one.now ≡ other.now) (other.now ≢ one.now) }
{
    match (one, other) {
        (Objective::Feasibility, Objective::Feasibility) => true,
        (Objective::Plain { sense, var }, Objective::Plain { sense: s, var: v }) => {
            *sense == *s && *var == *v
        }
        (Objective::Affine { sense, func }, Objective::Affine { sense: s, func: f }) => {
            *sense == *s && *func == *f
        }
        _ => false,
    }
}

/// Another coefficient or constant of the affine objective. It copies the function, or nothing
/// where the value stays.
pub(crate) fn affine_part(
    alloc: Global,
    model: &Catalog,
    sense: Sense,
    func: &Aff,
    part: &Part,
    value: Ratio,
) -> Result<EditPlan, Memory>
    requires objective { model.now.model.objective ≡ objective.Affine sense func.now }
    requires part { IsPart model.now.model part.now }
    ensures { IfOk result (LeadsToTarget model.now.model
        (edited model.now.model (objective_edit part.now value))) }
{
    with_part_of(alloc, model, sense, func, part, value)
}

// The same, by the number of the coefficient's variable.
fn with_part_of(
    alloc: Global,
    model: &Catalog,
    sense: Sense,
    func: &Aff,
    part: &Part,
    value: Ratio,
) -> Result<EditPlan, Memory>
    requires { model.now.model.objective ≡ objective.Affine sense func.now }
    ensures { IfOk result (LeadsToTarget model.now.model
        (record model.now.model {
          objective = on_objective
              (with_part part.now value) model.now.model.objective;
        })) }
{
    let objective = replaced(func, part, value)?.map(|func| Objective::Affine { sense, func });
    Ok(EditPlan::of_objective(alloc, objective, model.next()))
}
