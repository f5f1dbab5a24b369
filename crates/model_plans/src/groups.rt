//! Plans of the edits of one group.
ghost use Rattle.std.specs.Prelude.{◌≡◌, ◌+◌, ◌<◌, ◌^◌, IfOk, length, map};
ghost use Rattle.user_model.specs.Edited.{edited, numbered_from, renamed};
ghost use Rattle.user_model.specs.Consistent.{IsConsistent};
ghost use Rattle.user_model.specs.declared.edit.Edit.TheVariants.{AddGroup, FreeGroup, RenameVariable, Reset};
ghost use Rattle.model_refusals.specs.Accepted.{IsGroupedVariable};
ghost use Rattle.model_plans.specs.Plans.{Accepts, LeadsToTarget, listed_variables};

use crate::made_lists::only;
use crate::plan::EditPlan;
use lists::Duplicate;
use model_catalog::{Catalog, NameChange};
use model_refusals::GroupedVariable;
use name_index::{Name, Names};
use ratio_core::Memory;
use set_core::Set;
use std::alloc::Global;
use user_model::{Group, GroupVar, GroupVars, NextNumbers};

/// A new group. Each name is copied into the group and into the listing.
pub(crate) fn add(
    alloc: Global,
    model: &Catalog,
    names: &Names,
    set: &Set,
) -> Result<EditPlan, Memory>
    requires { Accepts model.now.model (AddGroup names.now set.now) }
    ensures { IfOk result (LeadsToTarget model.now.model
        (edited model.now.model (AddGroup names.now set.now))) }
{
    let next = model.next();
    let vars = numbered_vars(alloc, names, next.variable)?;
    let listed = listed_vars(alloc, &vars)?;
    let after = NextNumbers {
        group: next.group + 1,
        variable: next.variable + names.len() as u32,
        row: next.row,
    };
    let group = Group {
        id: next.group,
        vars: GroupVars::from_vec(vars),
        set: set.copy(alloc)?,
    };
    EditPlan::of_group(alloc, group, listed, after)
}

// The variables with these names, numbered from the first on.
fn numbered_vars(alloc: Global, names: &Names, first: u32) -> Result<Vec<GroupVar>, Memory>
    requires { first + length names.now < 2 ^ 32 }
    ensures { IfOk result (λ vars. vars.items ≡ numbered_from first names.now) }
{
    let mut vars = Vec::with_capacity(alloc, names.len())?;
    let mut number = first;
    for name in names.as_slice() {
        vars.push(GroupVar {
            number,
            name: name.copy()?,
        })?;
        number += 1;
    }
    Ok(vars)
}

// The variables with their names.
fn listed_vars(alloc: Global, vars: &[GroupVar]) -> Result<Vec<NameChange>, Memory>
    ensures { IfOk result (λ names. names.items ≡ listed_variables vars.now) }
{
    let mut names = Vec::with_capacity(alloc, vars.len())?;
    for var in vars {
        names.push(NameChange::new(var.number, Some(var.name.copy()?)))?;
    }
    Ok(names)
}

/// Another creation set of a group of one variable. It copies the group, or nothing where the set
/// stays.
pub(crate) fn reset(
    alloc: Global,
    model: &Catalog,
    var: &GroupedVariable,
    set: &Set,
) -> Result<EditPlan, Memory>
    requires consistent { IsConsistent model.now.model }
    requires var { IsGroupedVariable model.now.model var.now }
    ensures { IfOk result (LeadsToTarget model.now.model
        (edited model.now.model (Reset var.now.name.now set.now))) }
{
    if var.group.set == *set {
        return Ok(EditPlan::unchanged(alloc, model.next()));
    }
    let mut group = var.group.copy(alloc)?;
    group.set = set.copy(alloc)?;
    EditPlan::of_group(alloc, group, Vec::new(alloc), model.next())
}

/// A group of one variable becomes free. It copies the group, or nothing where it is free.
#[tactic(auto, unfolding(user_model::specs::Edited::edited))]
pub(crate) fn free(
    alloc: Global,
    model: &Catalog,
    var: &GroupedVariable,
) -> Result<EditPlan, Memory>
    requires consistent { IsConsistent model.now.model }
    requires var { IsGroupedVariable model.now.model var.now }
    ensures { IfOk result (LeadsToTarget model.now.model
        (edited model.now.model (FreeGroup var.now.name.now))) }
{
    reset(alloc, model, var, &Set::Reals { dimension: 1 })
}

/// Another name of a variable. It copies the variable's group.
pub(crate) fn rename(
    alloc: Global,
    model: &Catalog,
    var: &GroupedVariable,
    new: &Name,
) -> Result<EditPlan, Memory>
    requires accepts { Accepts model.now.model (RenameVariable var.now.name.now new.now) }
    requires var { IsGroupedVariable model.now.model var.now }
    ensures { IfOk result (LeadsToTarget model.now.model
        (edited model.now.model (RenameVariable var.now.name.now new.now))) }
{
    let group = var.group;
    let vars = renamed_vars(alloc, group.vars.as_slice(), var.number, new)?;
    let group = Group {
        id: group.id,
        vars: GroupVars::from_vec(vars),
        set: group.set.copy(alloc)?,
    };
    let listed = only(alloc, NameChange::new(var.number, Some(new.copy()?)))?;
    EditPlan::of_group(alloc, group, listed, model.next())
}

// The variables, with the new name at the one that has the number.
fn renamed_vars(
    alloc: Global,
    vars: &[GroupVar],
    number: u32,
    new: &Name,
) -> Result<Vec<GroupVar>, Memory>
    ensures { IfOk result (λ copies. copies.items ≡ map (renamed number new.now) vars.now) }
{
    let mut copies = Vec::with_capacity(alloc, vars.len())?;
    for var in vars {
        copies.push(renamed_var(var, number, new)?)?;
    }
    Ok(copies)
}

fn renamed_var(var: &GroupVar, number: u32, new: &Name) -> Result<GroupVar, Memory>
    ensures { IfOk result (λ copy. copy ≡ renamed number new.now var.now) }
{
    if var.number != number {
        return var.copy();
    }
    Ok(GroupVar {
        number,
        name: new.copy()?,
    })
}
