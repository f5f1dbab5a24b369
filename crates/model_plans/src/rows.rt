//! Plans of the edits of one row.
ghost use Rattle.std.specs.Prelude.{◌≡◌, ◌∷◌, [], IfOk, None};
ghost use Rattle.user_model.specs.Edited.{edited, row_number};
ghost use Rattle.user_model.specs.declared.edit.Edit.TheVariants.{AddRow, RowSet, DeleteRow, RenameRow};
ghost use Rattle.model_laws.specs.ItemChanges.{set_to};
ghost use Rattle.user_model.specs.Consistent.{IsConsistent};
ghost use Rattle.user_model.specs.declared.function.UserFunc.TheVariants.{Affine, AffineVec};
ghost use Rattle.model_refusals.specs.Accepted.{IsComponent, IsModelRow};
ghost use Rattle.model_plans.specs.Plans.{Accepts, HasParts, IsPart, LeadsToTarget, output_edit, row_edit};

use crate::located::located;
use crate::made_lists::with_component;
use crate::parts::{Part, replaced};
use crate::plan::EditPlan;
use aff_core::Aff;
use lists::Duplicate;
use model_catalog::{Catalog, NameChange};
use model_refusals::{Component, NamedRow};
use name_index::Name;
use numbered_list::Change;
use ratio_core::{Memory, Ratio};
use set_core::Set;
use std::alloc::Global;
use user_model::{NamedFunc, NextNumbers, Row, UserFunc};

/// A new row. Its function is rebuilt over the addresses of its variables, and its name is copied
/// into the row and into the listed names.
pub(crate) fn add(
    alloc: Global,
    model: &Catalog,
    name: &Name,
    func: &NamedFunc,
    set: &Set,
) -> Result<EditPlan, Memory>
    requires { Accepts model.now.model (AddRow name.now func.now set.now) }
    ensures { IfOk result (LeadsToTarget model.now.model
        (edited model.now.model (AddRow name.now func.now set.now))) }
{
    let next = model.next();
    let listed = NameChange::new(next.row, Some(name.copy()?));
    let row = Row {
        id: next.row,
        name: name.copy()?,
        // before the function, which a way out would take apart by its variants
        set: set.copy(alloc)?,
        func: located(alloc, model, func)?,
    };
    let after = NextNumbers {
        group: next.group,
        variable: next.variable,
        row: next.row + 1,
    };
    EditPlan::of_row(alloc, row, Some(listed), after)
}

/// Another coefficient or constant of a scalar affine row. It copies the row, or nothing where the
/// value stays.
pub(crate) fn scalar_part(
    alloc: Global,
    model: &Catalog,
    row: &NamedRow,
    func: &Aff,
    part: &Part,
    value: Ratio,
) -> Result<EditPlan, Memory>
    requires consistent { IsConsistent model.now.model }
    requires row { IsModelRow model.now.model row.now }
    requires affine { row.now.row.now.func ≡ Affine func.now }
    requires part { IsPart model.now.model part.now }
    ensures { IfOk result (LeadsToTarget model.now.model
        (edited model.now.model (row_edit row.now.name.now part.now value))) }
{
    match replaced(func, part, value)? {
        Some(func) => with_function(alloc, model, row.row, UserFunc::Affine(func)),
        None => Ok(EditPlan::unchanged(alloc, model.next())),
    }
}

/// Another coefficient or constant of a component of a vector affine row. It copies the row, or
/// nothing where the value stays.
pub(crate) fn vector_part(
    alloc: Global,
    model: &Catalog,
    row: &NamedRow,
    output: u32,
    component: &Component,
    part: &Part,
    value: Ratio,
) -> Result<EditPlan, Memory>
    requires consistent { IsConsistent model.now.model }
    requires row { IsModelRow model.now.model row.now }
    requires vector { row.now.row.now.func ≡ AffineVec component.now.funcs.now }
    requires component { IsComponent output component.now }
    requires part { IsPart model.now.model part.now }
    ensures { IfOk result (LeadsToTarget model.now.model
        (edited model.now.model (output_edit row.now.name.now output part.now value))) }
{
    match replaced(component.func, part, value)? {
        Some(func) => {
            let funcs = component.funcs.as_slice();
            let funcs = with_component(alloc, funcs, component.place, func)?;
            with_function(alloc, model, row.row, UserFunc::AffineVec(funcs))
        }
        None => Ok(EditPlan::unchanged(alloc, model.next())),
    }
}

// A row with another function.
fn with_function(
    alloc: Global,
    model: &Catalog,
    row: &Row,
    func: UserFunc,
) -> Result<EditPlan, Memory>
    ensures { IfOk result (λ plan. HasParts plan []
        (set_to row_number (record row.now { func = func }) ∷ []) None model.now.model.next [] []) }
{
    let row = Row {
        id: row.id,
        name: row.name.copy()?,
        func,
        set: row.set.copy(alloc)?,
    };
    EditPlan::of_row(alloc, row, None, model.next())
}

/// Another set of a row. It copies the row, or nothing where the set stays.
pub(crate) fn set(
    alloc: Global,
    model: &Catalog,
    row: &NamedRow,
    set: &Set,
) -> Result<EditPlan, Memory>
    requires consistent { IsConsistent model.now.model }
    requires row { IsModelRow model.now.model row.now }
    ensures { IfOk result (LeadsToTarget model.now.model
        (edited model.now.model (RowSet row.now.name.now set.now))) }
{
    let row = row.row;
    if row.set == *set {
        return Ok(EditPlan::unchanged(alloc, model.next()));
    }
    let row = Row {
        id: row.id,
        name: row.name.copy()?,
        set: set.copy(alloc)?,
        func: row.func.copy(alloc)?,
    };
    EditPlan::of_row(alloc, row, None, model.next())
}

/// A row goes. Nothing is copied.
pub(crate) fn delete(alloc: Global, model: &Catalog, row: &NamedRow) -> Result<EditPlan, Memory>
    requires consistent { IsConsistent model.now.model }
    requires row { IsModelRow model.now.model row.now }
    ensures { IfOk result (LeadsToTarget model.now.model
        (edited model.now.model (DeleteRow row.now.name.now))) }
{
    let number = row.row.id;
    let change = Change {
        number,
        content: None,
    };
    EditPlan::of_row_change(
        alloc,
        change,
        Some(NameChange::new(number, None)),
        model.next(),
    )
}

/// Another name of a row. It copies the row.
pub(crate) fn rename(
    alloc: Global,
    model: &Catalog,
    row: &NamedRow,
    new: &Name,
) -> Result<EditPlan, Memory>
    requires accepts { Accepts model.now.model (RenameRow row.now.name.now new.now) }
    requires row { IsModelRow model.now.model row.now }
    ensures { IfOk result (LeadsToTarget model.now.model
        (edited model.now.model (RenameRow row.now.name.now new.now))) }
{
    let row = row.row;
    let listed = NameChange::new(row.id, Some(new.copy()?));
    let row = Row {
        id: row.id,
        name: new.copy()?,
        set: row.set.copy(alloc)?,
        func: row.func.copy(alloc)?,
    };
    EditPlan::of_row(alloc, row, Some(listed), model.next())
}
