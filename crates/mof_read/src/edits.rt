//! The edits of a file.
ghost use Rattle.std.specs.Prelude.{◌≡◌, ◌++◌, ◌^◌, ◌<◌, IfOk, Ok, OnOk, length};
ghost use Rattle.mof_file.specs.File.{FileValue, file_in, seen};
ghost use Rattle.mof_read.specs.Edits.{edits_in, edits_of, objective_edits, sorted_edits, sorted_of, sorted_so_far};
ghost use Rattle.mof_read.specs.NameLaws.{MadeNamesAreNew, RowsAreApart};
ghost use Rattle.mof_values.specs.Walked.{MeetsWalk};

use crate::groups::put_groups;
use crate::sorting::{Sorting, sorted};
use indexmap::IndexSet;
use lists::{Memory, Sequence};
use mof_file::{FileConstraint, FileObjective, MofFault, MofFile, read_file};
use name_index::Name;
use std::alloc::Global;
use user_model::{Edit, Edits};

/// The edits that make a file's model from an empty one: its groups, rows and objective; or the
/// first fault of the file, in the order of the walk, with its place. No two rows have one name,
/// and a name that is made for an unnamed row is that of no constraint of the file.
#[tactic(auto, unfolding(crate::specs::Edits::edits_in))]
pub fn read(alloc: Global, text: &[u8]) -> Result<Edits, MofFault>
    ensures edits { MeetsWalk (λ edits. edits) result (edits_in text.now) }
    ensures apart { IfOk result (λ edits. RowsAreApart edits) }
    ensures made { IfOk result (λ _. (file : FileValue) → file_in text.now ≡ Ok file
        → MadeNamesAreNew file.constraints) }
{
    let file = read_file(alloc, text)?;
    let edits = edits_of(alloc, file)?;
    Ok(edits)
}

fn edits_of(alloc: Global, file: MofFile) -> Result<Edits, Memory>
    ensures edits { IfOk result (λ edits. edits ≡ edits_of (seen file)) }
    ensures few { OnOk result (length file.constraints.items < 2 ^ 64) }
{
    let mut edits = Vec::new(alloc);
    put_file(alloc, &mut edits, file)?;
    Ok(Sequence::from_vec(edits))
}

#[tactic(auto, unfolding(crate::specs::Edits::edits_of))]
fn put_file(alloc: Global, edits: &mut Vec<Edit>, file: MofFile) -> Result<(), Memory>
    ensures edits { OnOk result (edits.new.items ≡ edits.old.items ++ edits_of (seen file)) }
    ensures few { OnOk result (length file.constraints.items < 2 ^ 64) }
{
    let MofFile {
        variables,
        objective,
        constraints,
    } = file;
    put_constraints(alloc, edits, constraints, variables)?;
    put_objective(edits, objective)
}

// Appends the groups in the order of the file, and then the rows. What is sorted is lent, so that
// it is freed in one place.
fn put_constraints(
    alloc: Global,
    edits: &mut Vec<Edit>,
    constraints: Vec<FileConstraint>,
    variables: IndexSet<Name>,
) -> Result<(), Memory>
    ensures edits { OnOk result (edits.new.items ≡ edits.old.items
        ++ sorted_edits (sorted_of constraints.items) variables.keys) }
    ensures few { OnOk result (length constraints.items < 2 ^ 64) }
{
    let mut sorting = sorted(alloc, constraints)?;
    let made = put_sorted(alloc, edits, &mut sorting, variables);
    drop(sorting);
    made
}

fn put_sorted(
    alloc: Global,
    edits: &mut Vec<Edit>,
    sorting: &mut Sorting,
    variables: IndexSet<Name>,
) -> Result<(), Memory>
    ensures { OnOk result (edits.new.items ≡ edits.old.items
        ++ sorted_edits (sorted_so_far sorting.old) variables.keys) }
{
    put_groups(
        alloc,
        edits,
        &sorting.owners,
        &mut sorting.groups,
        variables,
    )?;
    edits.append(&mut sorting.rows)?;
    Ok(())
}

fn put_objective(edits: &mut Vec<Edit>, objective: FileObjective) -> Result<(), Memory>
    ensures { OnOk result (edits.new.items ≡ edits.old.items ++ objective_edits objective) }
{
    match objective {
        FileObjective::Feasibility => Ok(()),
        FileObjective::Optimize { sense, func } => {
            edits.push(Edit::Objective { sense, func })?;
            Ok(())
        }
    }
}
