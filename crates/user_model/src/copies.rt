//! Copies of edits, a function for each kind of several parts.
ghost use Rattle.std.specs.Prelude.{◌≡◌, IfOk};
ghost use Rattle.user_model.specs.declared.edit.Edit.TheVariants.{AddGroup, AddRow, Objective, Coef, VecCoef, ObjCoef, Constant, VecConstant, RowSet, Reset, RenameVariable, RenameRow};

use crate::{Edit, NamedFunc, Sense};
use lists::Duplicate;
use name_index::{Name, Names};
use ratio_core::{Memory, Ratio};
use set_core::Set;
use std::alloc::Global;

pub(crate) fn add_group(alloc: Global, names: &Names, set: &Set) -> Result<Edit, Memory>
    ensures { IfOk result (λ edit. edit ≡ AddGroup names.now set.now) }
{
    Ok(Edit::AddGroup {
        names: names.copy()?,
        set: set.copy(alloc)?,
    })
}

pub(crate) fn add_row(
    alloc: Global,
    name: &Name,
    func: &NamedFunc,
    set: &Set,
) -> Result<Edit, Memory>
    ensures { IfOk result (λ edit. edit ≡ AddRow name.now func.now set.now) }
{
    Ok(Edit::AddRow {
        name: name.copy()?,
        func: func.copy(alloc)?,
        set: set.copy(alloc)?,
    })
}

pub(crate) fn objective(alloc: Global, sense: Sense, func: &NamedFunc) -> Result<Edit, Memory>
    ensures { IfOk result (λ edit. edit ≡ Objective sense func.now) }
{
    Ok(Edit::Objective {
        sense,
        func: func.copy(alloc)?,
    })
}

pub(crate) fn coef(row: &Name, var: &Name, value: Ratio) -> Result<Edit, Memory>
    ensures { IfOk result (λ edit. edit ≡ Coef row.now var.now value) }
{
    Ok(Edit::Coef {
        row: row.copy()?,
        var: var.copy()?,
        value,
    })
}

pub(crate) fn vec_coef(row: &Name, output: u32, var: &Name, value: Ratio) -> Result<Edit, Memory>
    ensures { IfOk result (λ edit. edit ≡ VecCoef row.now output var.now value) }
{
    Ok(Edit::VecCoef {
        row: row.copy()?,
        output,
        var: var.copy()?,
        value,
    })
}

pub(crate) fn obj_coef(var: &Name, value: Ratio) -> Result<Edit, Memory>
    ensures { IfOk result (λ edit. edit ≡ ObjCoef var.now value) }
{
    Ok(Edit::ObjCoef {
        var: var.copy()?,
        value,
    })
}

pub(crate) fn constant(row: &Name, value: Ratio) -> Result<Edit, Memory>
    ensures { IfOk result (λ edit. edit ≡ Constant row.now value) }
{
    Ok(Edit::Constant {
        row: row.copy()?,
        value,
    })
}

pub(crate) fn vec_constant(row: &Name, output: u32, value: Ratio) -> Result<Edit, Memory>
    ensures { IfOk result (λ edit. edit ≡ VecConstant row.now output value) }
{
    Ok(Edit::VecConstant {
        row: row.copy()?,
        output,
        value,
    })
}

pub(crate) fn row_set(alloc: Global, row: &Name, set: &Set) -> Result<Edit, Memory>
    ensures { IfOk result (λ edit. edit ≡ RowSet row.now set.now) }
{
    Ok(Edit::RowSet {
        row: row.copy()?,
        set: set.copy(alloc)?,
    })
}

pub(crate) fn reset(alloc: Global, var: &Name, set: &Set) -> Result<Edit, Memory>
    ensures { IfOk result (λ edit. edit ≡ Reset var.now set.now) }
{
    Ok(Edit::Reset {
        var: var.copy()?,
        set: set.copy(alloc)?,
    })
}

pub(crate) fn rename_variable(old: &Name, new: &Name) -> Result<Edit, Memory>
    ensures { IfOk result (λ edit. edit ≡ RenameVariable old.now new.now) }
{
    Ok(Edit::RenameVariable {
        old: old.copy()?,
        new: new.copy()?,
    })
}

pub(crate) fn rename_row(old: &Name, new: &Name) -> Result<Edit, Memory>
    ensures { IfOk result (λ edit. edit ≡ RenameRow old.now new.now) }
{
    Ok(Edit::RenameRow {
        old: old.copy()?,
        new: new.copy()?,
    })
}
