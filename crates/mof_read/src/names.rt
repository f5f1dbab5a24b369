//! The names of rows.
ghost use Rattle.std.specs.Prelude.{◌≡◌, ◌++◌, ◌^◌, ◌<◌, ◌∷◌, [], IfOk, OnOk, length};
ghost use Rattle.mof_read.specs.Names.{all_names, and_name, first_free, numbered, own_name, row_name, with_own_name, with_own_names};

use indexmap::IndexSet;
use itoa::Buffer;
use lists::{Duplicate, Memory};
use mof_file::FileConstraint;
use name_index::{Name, NameFault};
use std::alloc::Global;

/// Constraints, each with no name or one of its own, and the names that constraints of the file
/// have.
#[derive(Drop)]
pub(crate) struct NamedConstraints {
    pub(crate) constraints: Vec<FileConstraint>,
    pub(crate) taken: IndexSet<Name>,
}

/// Leaves out each name that an earlier constraint has.
pub(crate) fn own_names(
    alloc: Global,
    constraints: Vec<FileConstraint>,
) -> Result<NamedConstraints, Memory>
    ensures constraints { IfOk result (λ named. named.constraints.items
        ≡ with_own_names [] constraints.items) }
    ensures taken { IfOk result (λ named. named.taken.keys ≡ all_names [] constraints.items) }
    ensures few { OnOk result (length constraints.items < 2 ^ 64) }
{
    let mut named = NamedConstraints {
        constraints: Vec::new(alloc),
        taken: IndexSet::new(alloc),
    };
    named.add_all(constraints)?;
    Ok(named)
}

impl NamedConstraints {
    fn add_all(&mut self, constraints: Vec<FileConstraint>) -> Result<(), Memory>
        ensures constraints { OnOk result (self.new.constraints.items
            ≡ self.old.constraints.items ++ with_own_names self.old.taken.keys constraints.items) }
        ensures taken { OnOk result (self.new.taken.keys
            ≡ all_names self.old.taken.keys constraints.items) }
        ensures few { OnOk result (length constraints.items < 2 ^ 64) }
    {
        self.constraints.reserve(constraints.len())?;
        for constraint in constraints {
            self.add(constraint)?;
        }
        Ok(())
    }

    fn add(&mut self, constraint: FileConstraint) -> Result<(), Memory>
        ensures constraints { OnOk result (self.new.constraints.items
            ≡ self.old.constraints.items ++ with_own_name self.old.taken.keys constraint ∷ []) }
        ensures taken { OnOk result (self.new.taken.keys
            ≡ and_name self.old.taken.keys constraint.name) }
    {
        let name = take_name(&mut self.taken, constraint.name)?;
        self.constraints.push(FileConstraint {
            name,
            func: constraint.func,
            set: constraint.set,
        })?;
        Ok(())
    }
}

// The name, unless it is taken; it is taken afterwards.
fn take_name(taken: &mut IndexSet<Name>, name: Option<Name>) -> Result<Option<Name>, Memory>
    ensures own { IfOk result (λ own. own ≡ own_name taken.old.keys name) }
    ensures taken { OnOk result (taken.new.keys ≡ and_name taken.old.keys name) }
{
    let Some(name) = name else {
        return Ok(None);
    };
    if taken.insert(name.copy()?)? {
        Ok(Some(name))
    } else {
        Ok(None)
    }
}

/// The name of a constraint with this number, of this total, as a row.
pub(crate) fn row_name(
    alloc: Global,
    taken: &IndexSet<Name>,
    count: usize,
    number: usize,
    name: Option<Name>,
) -> Result<Name, Memory>
    ensures { IfOk result (λ given. given ≡ row_name taken.now.keys count number name) }
{
    match name {
        Some(name) => Ok(name),
        None => first_free(alloc, taken, count, number),
    }
}

// The name `#n` for the first of n = number, number + count and so on that isn't taken.
#[tactic(auto, using(crate::proofs::FirstFree::tries))]
fn first_free(
    alloc: Global,
    taken: &IndexSet<Name>,
    count: usize,
    number: usize,
) -> Result<Name, Memory>
    ensures { IfOk result (λ name. name
        ≡ numbered (first_free taken.now.keys count (length taken.now.keys) number)) }
{
    let mut n = number as u128;
    for tried in 0..taken.len() {
        let name = numbered(alloc, n)?;
        if !taken.contains(&name) {
            return Ok(name);
        }
        n += count as u128;
    }
    numbered(alloc, n)
}

// The name `#n`.
#[tactic(auto, using(crate::proofs::FirstFree::not_bad))]
fn numbered(alloc: Global, n: u128) -> Result<Name, Memory>
    ensures { IfOk result (λ name. name ≡ numbered n) }
{
    let mut digits = Buffer::new();
    let mut text = String::from_str(alloc, "#")?;
    text.push_str(digits.format(n))?;
    match Name::new(alloc, text.as_str()) {
        Ok(name) => Ok(name),
        Err(NameFault::BadName) => unreachable!(),
        Err(NameFault::Memory) => Err(Memory),
    }
}
