//! An edit that isn't refused, with what its names name.
ghost use Rattle.std.specs.Prelude.{◌≡◌};
ghost use Rattle.user_model.specs.Model.{variable_address};

use aff_core::{Address, Aff, Root, VecAff};
use name_index::{Name, Names};
use ratio_core::Ratio;
use set_core::Set;
use user_model::{Group, NamedFunc, Row, Sense};

/// A row, with the name that an edit calls it by.
#[derive(Clone, Copy)]
pub struct NamedRow<'a> {
    pub name: &'a Name,
    pub row: &'a Row,
}

/// A variable's number, with the name that an edit calls it by.
#[derive(Clone, Copy)]
pub struct NamedVariable<'a> {
    pub name: &'a Name,
    pub number: u32,
}

/// The same, with the group that the variable stands in.
#[derive(Clone, Copy)]
pub struct GroupedVariable<'a> {
    pub name: &'a Name,
    pub number: u32,
    pub group: &'a Group,
}

/// A component of a vector affine function, by its place among the components.
#[derive(Clone, Copy)]
pub struct Component<'a> {
    pub funcs: &'a VecAff,
    pub place: usize,
    pub func: &'a Aff,
}

/// An edit that a model doesn't refuse. Rows, variables and functions that it changes stand in
/// place of their names: they are borrowed from the model, and what is new from the edit.
#[derive(Drop)]
pub enum AcceptedEdit<'a> {
    AddGroup {
        names: &'a Names,
        set: &'a Set,
    },
    AddRow {
        name: &'a Name,
        func: &'a NamedFunc,
        set: &'a Set,
    },
    Objective {
        sense: Sense,
        func: &'a NamedFunc,
    },
    Feasibility,
    Coef {
        row: NamedRow<'a>,
        func: &'a Aff,
        var: NamedVariable<'a>,
        value: Ratio,
    },
    VecCoef {
        row: NamedRow<'a>,
        output: u32,
        component: Component<'a>,
        var: NamedVariable<'a>,
        value: Ratio,
    },
    ObjCoef {
        sense: Sense,
        func: &'a Aff,
        var: NamedVariable<'a>,
        value: Ratio,
    },
    Constant {
        row: NamedRow<'a>,
        func: &'a Aff,
        value: Ratio,
    },
    VecConstant {
        row: NamedRow<'a>,
        output: u32,
        component: Component<'a>,
        value: Ratio,
    },
    ObjConstant {
        sense: Sense,
        func: &'a Aff,
        value: Ratio,
    },
    RowSet {
        row: NamedRow<'a>,
        set: &'a Set,
    },
    Reset {
        var: GroupedVariable<'a>,
        set: &'a Set,
    },
    FreeGroup {
        var: GroupedVariable<'a>,
    },
    DeleteVariable {
        var: GroupedVariable<'a>,
    },
    DeleteRow {
        row: NamedRow<'a>,
    },
    RenameVariable {
        var: GroupedVariable<'a>,
        new: &'a Name,
    },
    RenameRow {
        row: NamedRow<'a>,
        new: &'a Name,
    },
}

impl NamedVariable<'_> {
    /// The variable's address.
    pub fn address(&self) -> Address
        ensures { result ≡ variable_address self.now.number }
    {
        Address::root(Root::Variable, self.number)
    }
}
