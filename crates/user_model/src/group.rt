//! Groups of variables.
ghost use Rattle.std.specs.Prelude.{◌≡◌, IfOk};

use aff_core::Sequence;
use lists::Duplicate;
use name_index::Name;
use numbered_list::{HasNumber, Numbered};
use ratio_core::Memory;
use set_core::Set;
use std::alloc::Global;

/// A variable: its number, which no other variable ever has, and its name.
#[derive(Debug, Drop)]
pub struct GroupVar {
    pub number: u32,
    pub name: Name,
}

/// The variables of a group, in the order of its components.
pub type GroupVars = Sequence<GroupVar>;

/// Variables that were made together, and the set in which their values lie: their creation set.
#[derive(Debug, Drop)]
pub struct Group {
    pub id: u32,
    pub vars: GroupVars,
    pub set: Set,
}

/// Groups in the order of their numbers, each found by its number.
pub type Groups = Numbered<Group>;

impl HasNumber for Group {
    ghost number_of = { λ group. group.id };

    fn number(&self) -> u32 {
        self.id
    }
}

impl GroupVar {
    /// An equal variable in memory of its own.
    pub fn copy(&self) -> Result<GroupVar, Memory>
        ensures { IfOk result (λ var. var ≡ self.now) }
    {
        Ok(GroupVar {
            number: self.number,
            name: self.name.copy()?,
        })
    }
}

impl Group {
    /// An equal group in memory of its own.
    pub fn copy(&self, alloc: Global) -> Result<Group, Memory>
        ensures { IfOk result (λ group. group ≡ self.now) }
    {
        let vars = copy_vars(alloc, self.vars.as_slice())?;
        Ok(Group {
            id: self.id,
            vars: Sequence::from_vec(vars),
            set: self.set.copy(alloc)?,
        })
    }
}

fn copy_vars(alloc: Global, vars: &[GroupVar]) -> Result<Vec<GroupVar>, Memory>
    ensures { IfOk result (λ copies. copies.items ≡ vars.now) }
{
    let mut copies = Vec::with_capacity(alloc, vars.len())?;
    for var in vars {
        copies.push(var.copy()?)?;
    }
    Ok(copies)
}
