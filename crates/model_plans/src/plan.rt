//! What an accepted edit is to make of the model, as an exchange of contents.
ghost use Rattle.std.specs.Prelude.{◌≡◌, ◌∷◌, [], IfOk, None};
ghost use Rattle.std.specs.Option.{option_to_list};
ghost use Rattle.user_model.specs.Edited.{edited, group_number, row_number};
ghost use Rattle.model_laws.specs.ItemChanges.{set_to};
ghost use Rattle.model_refusals.specs.Accepted.{IsFound, edit_of};
ghost use Rattle.model_plans.specs.Plans.{Accepts, HasParts, LeadsToTarget};

use crate::made_lists::{only, only_some};
use crate::parts::Part;
use crate::{deletion, groups, objective, rows};
use model_catalog::{Catalog, Exchange, NameChange, NameChanges};
use model_refusals::AcceptedEdit;
use numbered_list::Change;
use ratio_core::Memory;
use std::alloc::Global;
use user_model::{Group, NextNumbers, Objective, Row};

/// What is to stand in the model, each content other than what stands there, and the names that
/// change.
#[derive(Drop)]
pub struct EditPlan {
    pub exchange: Exchange,
    pub names: NameChanges,
}

impl EditPlan {
    /// Nothing changes.
    pub(crate) fn unchanged(alloc: Global, next: NextNumbers) -> EditPlan
        ensures { HasParts result [] [] None next [] [] }
    {
        EditPlan::of_objective(alloc, None, next)
    }

    /// Nothing changes but the objective, where one is given.
    pub(crate) fn of_objective(
        alloc: Global,
        objective: Option<Objective>,
        next: NextNumbers,
    ) -> EditPlan
        ensures { HasParts result [] [] objective next [] [] }
    {
        EditPlan {
            exchange: Exchange {
                groups: Vec::new(alloc),
                rows: Vec::new(alloc),
                objective,
                next,
            },
            names: NameChanges {
                group: 0,
                variables: Vec::new(alloc),
                rows: Vec::new(alloc),
            },
        }
    }

    /// A row is to stand at its number, and its name changes, where one is listed.
    pub(crate) fn of_row(
        alloc: Global,
        row: Row,
        name: Option<NameChange>,
        next: NextNumbers,
    ) -> Result<EditPlan, Memory>
        ensures { IfOk result (λ plan. HasParts plan [] (set_to row_number row ∷ []) None next []
            (option_to_list name)) }
    {
        let change = Change {
            number: row.id,
            content: Some(row),
        };
        EditPlan::of_row_change(alloc, change, name, next)
    }

    /// One row changes, and its name, where one is listed.
    pub(crate) fn of_row_change(
        alloc: Global,
        change: Change<Row>,
        name: Option<NameChange>,
        next: NextNumbers,
    ) -> Result<EditPlan, Memory>
        ensures { IfOk result (λ plan. HasParts plan [] (change ∷ []) None next []
            (option_to_list name)) }
    {
        let rows = only(alloc, change)?;
        let listed = only_some(alloc, name)?;
        Ok(EditPlan {
            exchange: Exchange {
                groups: Vec::new(alloc),
                rows,
                objective: None,
                next,
            },
            names: NameChanges {
                group: 0,
                variables: Vec::new(alloc),
                rows: listed,
            },
        })
    }

    /// A group is to stand at its number, and the names of its variables that are listed change.
    pub(crate) fn of_group(
        alloc: Global,
        group: Group,
        variables: Vec<NameChange>,
        next: NextNumbers,
    ) -> Result<EditPlan, Memory>
        ensures { IfOk result (λ plan. HasParts plan
            (set_to group_number group ∷ []) [] None next variables.items []
            × (plan.names.group ≡ group.id)) }
    {
        let change = Change {
            number: group.id,
            content: Some(group),
        };
        EditPlan::of_group_change(alloc, change, variables, next)
    }

    /// One group changes, and the names of its variables that are listed.
    pub(crate) fn of_group_change(
        alloc: Global,
        change: Change<Group>,
        variables: Vec<NameChange>,
        next: NextNumbers,
    ) -> Result<EditPlan, Memory>
        ensures { IfOk result (λ plan. HasParts plan (change ∷ []) [] None next variables.items []
            × (plan.names.group ≡ change.number)) }
    {
        let group = change.number;
        let groups = only(alloc, change)?;
        Ok(EditPlan {
            exchange: Exchange {
                groups,
                rows: Vec::new(alloc),
                objective: None,
                next,
            },
            names: NameChanges {
                group,
                variables,
                rows: Vec::new(alloc),
            },
        })
    }
}

/// The plan of an edit that is not refused. It fails only where memory runs out. Only the row, the
/// group or the objective that changes is copied, and the deletion of a variable goes once over the
/// rows. What stays as it is, is in no plan. What the edit names was found; the variables of a new
/// row or objective are looked up as its function is made.
pub fn planned(alloc: Global, model: &Catalog, edit: &AcceptedEdit) -> Result<EditPlan, Memory>
    requires accepts { Accepts model.now.model (edit_of edit.now) }
    requires found { IsFound model.now.model edit.now }
    ensures { IfOk result (LeadsToTarget model.now.model
        (edited model.now.model (edit_of edit.now))) }
{
    match edit {
        AcceptedEdit::AddGroup { names, set } => groups::add(alloc, model, names, set),
        AcceptedEdit::AddRow { name, func, set } => rows::add(alloc, model, name, func, set),
        AcceptedEdit::Objective { sense, func } => objective::set(alloc, model, *sense, func),
        AcceptedEdit::Feasibility => Ok(objective::feasibility(alloc, model)),
        AcceptedEdit::Coef {
            row,
            func,
            var,
            value,
        } => rows::scalar_part(alloc, model, row, func, &Part::Coefficient(*var), *value),
        AcceptedEdit::VecCoef {
            row,
            output,
            component,
            var,
            value,
        } => {
            let part = Part::Coefficient(*var);
            rows::vector_part(alloc, model, row, *output, component, &part, *value)
        }
        AcceptedEdit::ObjCoef {
            sense,
            func,
            var,
            value,
        } => objective::affine_part(alloc, model, *sense, func, &Part::Coefficient(*var), *value),
        AcceptedEdit::Constant { row, func, value } => {
            rows::scalar_part(alloc, model, row, func, &Part::Constant, *value)
        }
        AcceptedEdit::VecConstant {
            row,
            output,
            component,
            value,
        } => rows::vector_part(
            alloc,
            model,
            row,
            *output,
            component,
            &Part::Constant,
            *value,
        ),
        AcceptedEdit::ObjConstant { sense, func, value } => {
            objective::affine_part(alloc, model, *sense, func, &Part::Constant, *value)
        }
        AcceptedEdit::RowSet { row, set } => rows::set(alloc, model, row, set),
        AcceptedEdit::Reset { var, set } => groups::reset(alloc, model, var, set),
        AcceptedEdit::FreeGroup { var } => groups::free(alloc, model, var),
        AcceptedEdit::DeleteVariable { var } => deletion::delete(alloc, model, var),
        AcceptedEdit::DeleteRow { row } => rows::delete(alloc, model, row),
        AcceptedEdit::RenameVariable { var, new } => groups::rename(alloc, model, var, new),
        AcceptedEdit::RenameRow { row, new } => rows::rename(alloc, model, row, new),
    }
}
