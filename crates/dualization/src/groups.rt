//! The variables of the dual: the edits that add them in groups.
ghost use Rattle.std.specs.Prelude.{◌≡◌, ◌<◌, ◌++◌, IfOk, OnOk, flat_map, map};
ghost use Rattle.dual_model.specs.DualOf.{each_placed, group_groups, groups_for, own_groups, row_groups, two_groups};
ghost use Rattle.dualization.specs.DualEdits.{edit_of_group, names_added};

use crate::names::{part_name, part_names};
use crate::sets::dual_set;
use cert_core::component_count;
use lists::{Duplicate, Memory};
use name_index::{Name, Names};
use ratio_core::Ratio;
use set_core::Set;
use std::alloc::Global;
use user_model::{Edit, Groups, Rows};

/// The groups of the rows' duals, and then those of the groups that are intervals.
pub(crate) fn group_edits(alloc: Global, rows: &Rows, groups: &Groups) -> Result<Vec<Edit>, Memory>
    ensures { IfOk result (λ edits. edits.items ≡ map edit_of_group
        (each_placed row_groups 1 rows.now.items ++ each_placed group_groups 1 groups.now.items)) }
{
    let mut edits = Vec::new(alloc);
    push_row_groups(alloc, &mut edits, rows)?;
    push_own_groups(alloc, &mut edits, groups)?;
    Ok(edits)
}

fn push_row_groups(alloc: Global, edits: &mut Vec<Edit>, rows: &Rows) -> Result<(), Memory>
    ensures { OnOk result (edits.new.items ≡ edits.old.items
        ++ map edit_of_group (each_placed row_groups 1 rows.now.items)) }
{
    // for the proof that places don't overflow
    let _count = rows.len();
    for (i, row) in rows.iter().enumerate() {
        push_groups_for(alloc, edits, i + 1, component_count(&row.func), &row.set)?;
    }
    Ok(())
}

// Appends the groups of this number of duals of a row.
fn push_groups_for(
    alloc: Global,
    edits: &mut Vec<Edit>,
    place: usize,
    count: usize,
    set: &Set,
) -> Result<(), Memory>
    ensures { OnOk result (edits.new.items ≡ edits.old.items
        ++ map edit_of_group (groups_for place count set.now)) }
{
    match set {
        Set::Interval { .. } => push_two(alloc, edits, 'y', 'z', place),
        _ => {
            let names = part_names(alloc, 'y', place, count)?;
            let set = dual_set(alloc, set)?;
            edits.push(Edit::AddGroup { names, set })?;
            Ok(())
        }
    }
}

fn push_own_groups(alloc: Global, edits: &mut Vec<Edit>, groups: &Groups) -> Result<(), Memory>
    ensures { OnOk result (edits.new.items ≡ edits.old.items
        ++ map edit_of_group (each_placed group_groups 1 groups.now.items)) }
{
    let _count = groups.len();
    for (i, group) in groups.iter().enumerate() {
        push_own(alloc, edits, i + 1, &group.set)?;
    }
    Ok(())
}

fn push_own(alloc: Global, edits: &mut Vec<Edit>, place: usize, set: &Set) -> Result<(), Memory>
    ensures { OnOk result (edits.new.items ≡ edits.old.items
        ++ map edit_of_group (own_groups place set.now)) }
{
    match set {
        Set::Interval { .. } => push_two(alloc, edits, 'p', 'q', place),
        _ => Ok(()),
    }
}

// Appends two variables, at least 0 and at most 0.
fn push_two(
    alloc: Global,
    edits: &mut Vec<Edit>,
    above: char,
    below: char,
    place: usize,
) -> Result<(), Memory>
    requires above { above < 128 }
    requires below { below < 128 }
    ensures { OnOk result (edits.new.items ≡ edits.old.items
        ++ map edit_of_group (two_groups above below place)) }
{
    let zero = Ratio::zero();
    let above = Names::from_vec(vec![in alloc; part_name(alloc, above, place, 1)?]?);
    edits.push(Edit::AddGroup {
        names: above,
        set: Set::GreaterThan { lower: zero },
    })?;
    let below = Names::from_vec(vec![in alloc; part_name(alloc, below, place, 1)?]?);
    edits.push(Edit::AddGroup {
        names: below,
        set: Set::LessThan { upper: zero },
    })?;
    Ok(())
}

/// The names of the variables that edits add, in their order.
pub(crate) fn names_added(alloc: Global, edits: &[Edit]) -> Result<Vec<Name>, Memory>
    ensures { IfOk result (λ names. names.items ≡ flat_map names_added edits.now) }
{
    let mut names = Vec::new(alloc);
    for edit in edits {
        push_names(&mut names, edit)?;
    }
    Ok(names)
}

fn push_names(names: &mut Vec<Name>, edit: &Edit) -> Result<(), Memory>
    ensures { OnOk result (names.new.items ≡ names.old.items ++ names_added edit.now) }
{
    match edit {
        Edit::AddGroup { names: added, .. } => push_copies(names, added.as_slice()),
        _ => Ok(()),
    }
}

fn push_copies(names: &mut Vec<Name>, added: &[Name]) -> Result<(), Memory>
    ensures { OnOk result (names.new.items ≡ names.old.items ++ added.now) }
{
    for name in added {
        names.push(name.copy()?)?;
    }
    Ok(())
}
