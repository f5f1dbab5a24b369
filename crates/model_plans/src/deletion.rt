//! What a deleted variable leaves.
ghost use Rattle.std.specs.Prelude.{◌≡◌, IfOk, Some, filter, not, ◌==◌, map, true};
ghost use Rattle.std.specs.List.{list_any};
ghost use Rattle.user_model.specs.Edited.{edited, row_number};
ghost use Rattle.user_model.specs.Deletion.{group_without, objective_without, row_without, without_term};
ghost use Rattle.user_model.specs.Model.{has_variable, row_mentions};
ghost use Rattle.set_core.specs.Shapes.{resized};
ghost use Rattle.user_model.specs.declared.edit.Edit.TheVariants.{DeleteVariable};
ghost use Rattle.model_laws.specs.ItemChanges.{edits_of};
ghost use Rattle.user_model.specs.Functions.{func_mentions, has_term};
ghost use Rattle.user_model.specs.Consistent.{IsConsistent};
ghost use Rattle.model_refusals.specs.Accepted.{IsGroupedVariable};
ghost use Rattle.model_plans.specs.Plans.{IsChange, LeadsToTarget, gone};

use crate::made_lists::only;
use crate::plan::EditPlan;
use aff_core::{Address, Aff, Root, VecAff, has_address, without_address};
use lists::Duplicate;
use model_catalog::{Catalog, NameChange};
use model_refusals::GroupedVariable;
use numbered_list::Change;
use ratio_core::{Memory, Ratio};
use set_core::Set;
use std::alloc::Global;
use user_model::{Group, GroupVar, GroupVars, Objective, Row, Rows, UserFunc};

/// The model without a variable. It goes once over the rows, and copies those that mention it, the
/// variable's group, and the objective where it mentions it.
pub(crate) fn delete(
    alloc: Global,
    model: &Catalog,
    var: &GroupedVariable,
) -> Result<EditPlan, Memory>
    requires consistent { IsConsistent model.now.model }
    requires var { IsGroupedVariable model.now.model var.now }
    ensures { IfOk result (LeadsToTarget model.now.model
        (edited model.now.model (DeleteVariable var.now.name.now))) }
{
    let at = Address::root(Root::Variable, var.number);
    let change = Change {
        number: var.group.id,
        content: group_without(alloc, var.group, var.number)?,
    };
    let listed = only(alloc, NameChange::new(var.number, None))?;
    let mut plan = EditPlan::of_group_change(alloc, change, listed, model.next())?;
    plan.exchange.rows = rows_without(alloc, model.rows(), &at)?;
    plan.names.rows = gone_rows(alloc, &plan.exchange.rows)?;
    plan.exchange.objective = objective_without(model.objective(), &at)?;
    Ok(plan)
}

// The rows that mention the variable lose it, or go.
fn rows_without(alloc: Global, rows: &Rows, at: &Address) -> Result<Vec<Change<Row>>, Memory>
    ensures { IfOk result (λ changes. changes.items
        ≡ edits_of row_number (row_without at.now) (row_mentions at.now) rows.now.items) }
{
    let mut changes = Vec::new(alloc);
    for row in rows.iter() {
        if mentions(&row.func, at) {
            let content = row_without(alloc, row, at)?;
            changes.push(Change {
                number: row.id,
                content,
            })?;
        }
    }
    Ok(changes)
}

// The rows that go, without their names.
fn gone_rows(alloc: Global, changes: &[Change<Row>]) -> Result<Vec<NameChange>, Memory>
    ensures { IfOk result (λ names. names.items ≡ gone changes.now) }
{
    let mut names = Vec::new(alloc);
    for change in changes {
        if change.content.is_none() {
            names.push(NameChange::new(change.number, None))?;
        }
    }
    Ok(names)
}

// Whether the function has the address as a component or in a term.
fn mentions(func: &UserFunc, at: &Address) -> bool
    ensures { result ≡ func_mentions at.now func.now }
{
    match func {
        UserFunc::Plain(var) => *at == *var,
        UserFunc::Affine(f) => f.mentions(at),
        UserFunc::PlainVec(vars) => has_address(vars, at),
        UserFunc::AffineVec(funcs) => any_mentions(funcs.as_slice(), at),
    }
}

fn any_mentions(funcs: &[Aff], at: &Address) -> bool
    ensures { result ≡ list_any (has_term at.now) funcs.now }
{
    funcs.iter().any(|f| f.mentions(at))
}

// What the variable leaves of a row that mentions it: none where no component is left.
fn row_without(alloc: Global, row: &Row, at: &Address) -> Result<Option<Row>, Memory>
    requires { row_mentions at.now row.now ≡ true }
    ensures { IfOk result (λ left. left ≡ row_without at.now row.now) }
{
    match &row.func {
        UserFunc::Plain(_) => Ok(None),
        UserFunc::Affine(f) => {
            let f = f.with_coef(at, Ratio::zero())?;
            with_content(row, UserFunc::Affine(f), row.set.copy(alloc)?)
        }
        UserFunc::PlainVec(vars) => {
            let left = without_address(vars, at)?;
            if left.is_empty() {
                return Ok(None);
            }
            let set = row.set.resized(alloc, left.len())?;
            with_content(row, UserFunc::PlainVec(left), set)
        }
        UserFunc::AffineVec(funcs) => {
            let left = all_without(alloc, funcs.as_slice(), at)?;
            let set = row.set.copy(alloc)?;
            with_content(row, UserFunc::AffineVec(VecAff::from_vec(left)), set)
        }
    }
}

// The row with another function and set.
fn with_content(row: &Row, func: UserFunc, set: Set) -> Result<Option<Row>, Memory>
    ensures { IfOk result (λ made. made ≡ Some (record row.now { func = func; set = set })) }
{
    Ok(Some(Row {
        id: row.id,
        name: row.name.copy()?,
        func,
        set,
    }))
}

fn all_without(alloc: Global, funcs: &[Aff], at: &Address) -> Result<Vec<Aff>, Memory>
    ensures { IfOk result (λ left. left.items ≡ map (without_term at.now) funcs.now) }
{
    let mut left = Vec::with_capacity(alloc, funcs.len())?;
    for f in funcs {
        left.push(f.with_coef(at, Ratio::zero())?)?;
    }
    Ok(left)
}

// The group without the variable, and none where it was the only one.
fn group_without(alloc: Global, group: &Group, number: u32) -> Result<Option<Group>, Memory>
    requires { has_variable number group.now ≡ true }
    ensures { IfOk result (λ left. left ≡ group_without number group.now) }
{
    let vars = other_vars(alloc, group.vars.as_slice(), number)?;
    if vars.is_empty() {
        return Ok(None);
    }
    let set = group.set.resized(alloc, vars.len())?;
    Ok(Some(Group {
        id: group.id,
        vars: GroupVars::from_vec(vars),
        set,
    }))
}

fn other_vars(alloc: Global, vars: &[GroupVar], number: u32) -> Result<Vec<GroupVar>, Memory>
    ensures { IfOk result (λ left. left.items ≡ filter (λ v. not (v.number == number)) vars.now) }
{
    let mut left = Vec::with_capacity(alloc, vars.len())?;
    for var in vars {
        if var.number != number {
            left.push(var.copy()?)?;
        }
    }
    Ok(left)
}

// The objective without the variable, and none where it doesn't mention it.
fn objective_without(objective: &Objective, at: &Address) -> Result<Option<Objective>, Memory>
    ensures { IfOk result (IsChange objective.now (objective_without at.now objective.now)) }
{
    match objective {
        Objective::Feasibility => Ok(None),
        Objective::Plain { var, .. } => {
            if *at != *var {
                return Ok(None);
            }
            Ok(Some(Objective::Feasibility))
        }
        Objective::Affine { sense, func } => {
            if !func.mentions(at) {
                return Ok(None);
            }
            Ok(Some(Objective::Affine {
                sense: *sense,
                func: func.with_coef(at, Ratio::zero())?,
            }))
        }
    }
}
