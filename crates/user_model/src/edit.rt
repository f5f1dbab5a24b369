//! Edits of the user's model.
ghost use Rattle.std.specs.Prelude.{◌≡◌, IfOk};

use crate::{Sense, copies};
use lists::{Duplicate, Sequence};
use name_index::{Name, Names};
use named_aff::{NamedAff, NamedVec};
use ratio_core::{Memory, Ratio};
use set_core::Set;
use std::alloc::Global;

/// A function by the names of its variables.
#[derive(Debug, Drop)]
pub enum NamedFunc {
    /// One variable.
    Plain(Name),
    Affine(NamedAff),
    /// A variable a component.
    PlainVec(Names),
    /// An affine function a component.
    AffineVec(NamedVec),
}

/// An edit of the user's model. Outputs are counted from 1.
#[derive(Debug, Drop)]
pub enum Edit {
    /// New variables with their creation set.
    AddGroup {
        names: Names,
        set: Set,
    },
    AddRow {
        name: Name,
        func: NamedFunc,
        set: Set,
    },
    Objective {
        sense: Sense,
        func: NamedFunc,
    },
    /// No objective.
    Feasibility,
    /// The coefficient of a variable in a scalar affine row.
    Coef {
        row: Name,
        var: Name,
        value: Ratio,
    },
    /// The coefficient of a variable in a component of a vector affine row.
    VecCoef {
        row: Name,
        output: u32,
        var: Name,
        value: Ratio,
    },
    /// The coefficient of a variable in an affine objective.
    ObjCoef {
        var: Name,
        value: Ratio,
    },
    /// The constant of a scalar affine row.
    Constant {
        row: Name,
        value: Ratio,
    },
    /// The constant of a component of a vector affine row.
    VecConstant {
        row: Name,
        output: u32,
        value: Ratio,
    },
    /// The constant of an affine objective.
    ObjConstant {
        value: Ratio,
    },
    /// Another set of the same type for a row.
    RowSet {
        row: Name,
        set: Set,
    },
    /// Another set of the same type for a group of one variable.
    Reset {
        var: Name,
        set: Set,
    },
    /// Makes the group of one variable free.
    FreeGroup {
        var: Name,
    },
    DeleteVariable {
        var: Name,
    },
    DeleteRow {
        row: Name,
    },
    RenameVariable {
        old: Name,
        new: Name,
    },
    RenameRow {
        old: Name,
        new: Name,
    },
}

impl NamedFunc {
    /// An equal function in memory of its own.
    pub fn copy(&self, alloc: Global) -> Result<NamedFunc, Memory>
        ensures { IfOk result (λ func. func ≡ self.now) }
    {
        Ok(match self {
            NamedFunc::Plain(var) => NamedFunc::Plain(var.copy()?),
            NamedFunc::Affine(func) => NamedFunc::Affine(func.copy()?),
            NamedFunc::PlainVec(vars) => NamedFunc::PlainVec(vars.copy()?),
            NamedFunc::AffineVec(funcs) => NamedFunc::AffineVec(funcs.copy()?),
        })
    }
}

/// Edits in their order.
pub type Edits = Sequence<Edit>;

impl Edit {
    /// An equal edit in memory of its own.
    pub fn copy(&self, alloc: Global) -> Result<Edit, Memory>
        ensures { IfOk result (λ edit. edit ≡ self.now) }
    {
        match self {
            Edit::AddGroup { names, set } => copies::add_group(alloc, names, set),
            Edit::AddRow { name, func, set } => copies::add_row(alloc, name, func, set),
            Edit::Objective { sense, func } => copies::objective(alloc, *sense, func),
            Edit::Feasibility => Ok(Edit::Feasibility),
            Edit::Coef { row, var, value } => copies::coef(row, var, *value),
            Edit::VecCoef {
                row,
                output,
                var,
                value,
            } => copies::vec_coef(row, *output, var, *value),
            Edit::ObjCoef { var, value } => copies::obj_coef(var, *value),
            Edit::Constant { row, value } => copies::constant(row, *value),
            Edit::VecConstant { row, output, value } => copies::vec_constant(row, *output, *value),
            Edit::ObjConstant { value } => Ok(Edit::ObjConstant { value: *value }),
            Edit::RowSet { row, set } => copies::row_set(alloc, row, set),
            Edit::Reset { var, set } => copies::reset(alloc, var, set),
            Edit::FreeGroup { var } => Ok(Edit::FreeGroup { var: var.copy()? }),
            Edit::DeleteVariable { var } => Ok(Edit::DeleteVariable { var: var.copy()? }),
            Edit::DeleteRow { row } => Ok(Edit::DeleteRow { row: row.copy()? }),
            Edit::RenameVariable { old, new } => copies::rename_variable(old, new),
            Edit::RenameRow { old, new } => copies::rename_row(old, new),
        }
    }
}
