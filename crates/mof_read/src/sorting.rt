//! Constraints, sorted into creation sets and rows.
ghost use Rattle.std.specs.Prelude.{◌≡◌, ◌^◌, ◌<◌, IfOk, OnOk, length};
ghost use Rattle.mof_read.specs.Edits.{sorted_in, sorted_of, sorted_so_far};

use crate::groups::{becomes_group, plain_names, put_owners};
use crate::names::{NamedConstraints, own_names, row_name};
use indexmap::{IndexMap, IndexSet};
use lists::Memory;
use mof_file::FileConstraint;
use name_index::Name;
use std::alloc::Global;
use user_model::Edit;

/// What is made of constraints: the groups that don't stand elsewhere yet, the group of each
/// variable that is in one, and the rows.
#[derive(Drop)]
pub(crate) struct Sorting {
    pub(crate) groups: Vec<Option<Edit>>,
    pub(crate) owners: IndexMap<Name, usize>,
    pub(crate) rows: Vec<Edit>,
}

/// The constraints of a file, sorted.
#[tactic(auto, unfolding(crate::specs::Edits::sorted_of))]
pub(crate) fn sorted(alloc: Global, constraints: Vec<FileConstraint>) -> Result<Sorting, Memory>
    ensures sorted { IfOk result (λ sorting. sorted_so_far sorting ≡ sorted_of constraints.items) }
    ensures few { OnOk result (length constraints.items < 2 ^ 64) }
{
    let NamedConstraints { constraints, taken } = own_names(alloc, constraints)?;
    sorted_in(alloc, &taken, constraints)
}

// The same, with these names taken.
fn sorted_in(
    alloc: Global,
    taken: &IndexSet<Name>,
    constraints: Vec<FileConstraint>,
) -> Result<Sorting, Memory>
    ensures { IfOk result (λ sorting. sorted_so_far sorting
        ≡ sorted_in taken.now.keys constraints.items) }
{
    let count = constraints.len();
    let mut sorting = Sorting::new(alloc);
    let mut number = 0;
    for constraint in constraints {
        number += 1;
        sorting.add(alloc, taken, count, number, constraint)?;
    }
    Ok(sorting)
}

impl Sorting {
    ghost use Rattle.mof_read.specs.Edits.{nothing, sorted_so_far, with_constraint, with_group, with_row};

    fn new(alloc: Global) -> Sorting
        ensures { sorted_so_far result ≡ nothing }
    {
        Sorting {
            groups: Vec::new(alloc),
            owners: IndexMap::new(alloc),
            rows: Vec::new(alloc),
        }
    }

    // Adds the constraint with this number, of this total.
    #[tactic(auto, unfolding(crate::specs::Edits::with_constraint))]
    fn add(
        &mut self,
        alloc: Global,
        taken: &IndexSet<Name>,
        count: usize,
        number: usize,
        constraint: FileConstraint,
    ) -> Result<(), Memory>
        ensures { OnOk result (sorted_so_far self.new
            ≡ with_constraint taken.now.keys count number (sorted_so_far self.old) constraint) }
    {
        if becomes_group(alloc, &self.owners, &constraint.func, &constraint.set)? {
            self.add_group(alloc, constraint)
        } else {
            self.add_row(alloc, taken, count, number, constraint)
        }
    }

    fn add_group(&mut self, alloc: Global, constraint: FileConstraint) -> Result<(), Memory>
        ensures { OnOk result (sorted_so_far self.new
            ≡ with_group (sorted_so_far self.old) constraint) }
    {
        let names = plain_names(alloc, constraint.func)?;
        put_owners(&mut self.owners, names.as_slice(), self.groups.len())?;
        self.groups.push(Some(Edit::AddGroup {
            names,
            set: constraint.set,
        }))?;
        Ok(())
    }

    fn add_row(
        &mut self,
        alloc: Global,
        taken: &IndexSet<Name>,
        count: usize,
        number: usize,
        constraint: FileConstraint,
    ) -> Result<(), Memory>
        ensures { OnOk result (sorted_so_far self.new
            ≡ with_row taken.now.keys count number (sorted_so_far self.old) constraint) }
    {
        let name = row_name(alloc, taken, count, number, constraint.name)?;
        self.rows.push(Edit::AddRow {
            name,
            func: constraint.func,
            set: constraint.set,
        })?;
        Ok(())
    }
}
