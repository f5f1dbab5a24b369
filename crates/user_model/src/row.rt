//! Rows.
ghost use Rattle.std.specs.Prelude.{◌≡◌, IfOk};

use crate::UserFunc;
use lists::Duplicate;
use name_index::Name;
use numbered_list::{HasNumber, Numbered};
use ratio_core::Memory;
use set_core::Set;
use std::alloc::Global;

/// A constraint: the values of its function lie in its set. Its number is never another row's.
#[derive(Debug, Drop)]
pub struct Row {
    pub id: u32,
    pub name: Name,
    pub func: UserFunc,
    pub set: Set,
}

/// Rows in the order of their numbers, each found by its number.
pub type Rows = Numbered<Row>;

impl HasNumber for Row {
    ghost number_of = { λ row. row.id };

    fn number(&self) -> u32 {
        self.id
    }
}

impl Row {
    /// An equal row in memory of its own.
    pub fn copy(&self, alloc: Global) -> Result<Row, Memory>
        ensures { IfOk result (λ row. row ≡ self.now) }
    {
        Ok(Row {
            id: self.id,
            name: self.name.copy()?,
            func: self.func.copy(alloc)?,
            set: self.set.copy(alloc)?,
        })
    }
}
