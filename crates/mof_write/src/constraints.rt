//! Groups and rows as JSON values.
ghost use Rattle.std.specs.Prelude.{◌≡◌, ◌∷◌, ◌++◌, [], All, IfOk, OnOk, map};
ghost use Rattle.serde_json.specs.Data.{string};
ghost use Rattle.serde_json.specs.View.{view};
ghost use Rattle.mof_write.specs.Sayable.{GroupFits, IsSayableRow};
ghost use Rattle.mof_write.specs.Values.{object_of};
ghost use Rattle.mof_write.specs.Written.{group_data, naming, row_data, variables_of};

use crate::functions::{function, named_variable, named_variables};
use crate::numbers::name;
use crate::sets::set;
use lists::Memory;
use model_store::UserModel;
use serde_json::{Value, json};
use std::alloc::{AllocError, Global};
use user_model::{Group, GroupVar, Groups, Row, Rows};

/// The groups, each as an unnamed constraint, and then the rows.
pub(crate) fn constraint_values(alloc: Global, model: &UserModel) -> Result<Vec<Value>, Memory>
    ensures value { IfOk result (λ values. map view values.items
        ≡ map group_data model.now.model.groups
        ++ map (row_data (naming model.now.model)) model.now.model.rows) }
    ensures groups { OnOk result (All GroupFits model.now.model.groups) }
    ensures rows { OnOk result (All IsSayableRow model.now.model.rows) }
{
    let mut values = Vec::new(alloc);
    put_groups(alloc, &mut values, model.groups())?;
    put_rows(alloc, &mut values, model, model.rows())?;
    Ok(values)
}

fn put_groups(alloc: Global, values: &mut Vec<Value>, groups: &Groups) -> Result<(), Memory>
    ensures value { OnOk result (map view values.new.items
        ≡ map view values.old.items ++ map group_data groups.now.items) }
    ensures fits { OnOk result (All GroupFits groups.now.items) }
{
    for group in groups.iter() {
        values.push(group_constraint(alloc, group)?)?;
    }
    Ok(())
}

fn put_rows(
    alloc: Global,
    values: &mut Vec<Value>,
    model: &UserModel,
    rows: &Rows,
) -> Result<(), Memory>
    ensures value { OnOk result (map view values.new.items
        ≡ map view values.old.items ++ map (row_data (naming model.now.model)) rows.now.items) }
    ensures fits { OnOk result (All IsSayableRow rows.now.items) }
{
    for row in rows.iter() {
        values.push(row_constraint(alloc, model, row)?)?;
    }
    Ok(())
}

#[tactic(auto, unfolding(crate::specs::Written::group_data))]
fn group_constraint(alloc: Global, group: &Group) -> Result<Value, Memory>
    ensures value { IfOk result (λ value. view value ≡ group_data group.now) }
    ensures fits { OnOk result (GroupFits group.now) }
{
    let function = group_function(alloc, group.set.is_scalar(), group.vars.as_slice())?;
    let set = set(alloc, &group.set)?;
    let constraint = unnamed(alloc, function, set)?;
    Ok(constraint)
}

fn unnamed(alloc: Global, function: Value, set: Value) -> Result<Value, AllocError>
    ensures { IfOk result (λ value. view value
        ≡ object_of (("function", view function) ∷ ("set", view set) ∷ [])) }
{
    json!(in alloc; {"function": function, "set": set})
}

// The variables of a group with a set of vectors, and the only one of a group with a set of
// numbers.
fn group_function(alloc: Global, is_scalar: bool, vars: &[GroupVar]) -> Result<Value, Memory>
    ensures { IfOk result (λ value. view value ≡ variables_of is_scalar vars.now) }
{
    match vars {
        [first, ..] if is_scalar => {
            let function = named_variable(alloc, name(alloc, &first.name)?)?;
            Ok(function)
        }
        _ => {
            let names = Value::Array(names(alloc, vars)?);
            let function = named_variables(alloc, names)?;
            Ok(function)
        }
    }
}

fn names(alloc: Global, vars: &[GroupVar]) -> Result<Vec<Value>, Memory>
    ensures { IfOk result (λ values. map view values.items ≡ map (λ v. string v.name) vars.now) }
{
    let mut values = Vec::new(alloc);
    for var in vars {
        values.push(name(alloc, &var.name)?)?;
    }
    Ok(values)
}

#[tactic(auto, unfolding(crate::specs::Written::row_data))]
fn row_constraint(alloc: Global, model: &UserModel, row: &Row) -> Result<Value, Memory>
    ensures value { IfOk result (λ value. view value ≡ row_data (naming model.now.model) row.now) }
    ensures fits { OnOk result (IsSayableRow row.now) }
{
    let function = function(alloc, model, &row.func)?;
    let name = name(alloc, &row.name)?;
    let set = set(alloc, &row.set)?;
    let constraint = named(alloc, function, name, set)?;
    Ok(constraint)
}

fn named(alloc: Global, function: Value, name: Value, set: Value) -> Result<Value, AllocError>
    ensures { IfOk result (λ value. view value ≡ object_of
        (("function", view function) ∷ ("name", view name) ∷ ("set", view set) ∷ [])) }
{
    json!(in alloc; {"function": function, "name": name, "set": set})
}
