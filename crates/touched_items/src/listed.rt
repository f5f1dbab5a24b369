//! What undos list, each number once.
ghost use Rattle.std.specs.Prelude.{◌≡◌, ◌++◌, IfOk, OnOk, flat_map, map};
ghost use Rattle.std.specs.Option.{option_copied};
ghost use Rattle.touched_items.specs.FirstChanges.{AreFirst, first_objective};

use lists::Memory;
use numbered_list::Change;
use std::alloc::Global;
use user_model::{Group, Objective, Row, Undo};

/// The groups, the rows and the objective that undos list, each once, groups and rows in the order
/// of their numbers. Each is there with what it was before the first undo that lists it: undos that
/// lead back one after another, the last first, list first what was there before all of them.
#[derive(Debug, Drop)]
pub struct ListedChanges<'a> {
    pub groups: Vec<&'a Change<Group>>,
    pub rows: Vec<&'a Change<Row>>,
    pub objective: Option<&'a Objective>,
}

/// What undos list.
pub fn list_undos<'a>(alloc: Global, undos: &'a [Undo]) -> Result<ListedChanges<'a>, Memory>
    ensures groups { IfOk result (λ listed.
        AreFirst (flat_map (λ u. u.groups) undos.now) (map (λ c. c.now) listed.groups.items)) }
    ensures rows { IfOk result (λ listed.
        AreFirst (flat_map (λ u. u.rows) undos.now) (map (λ c. c.now) listed.rows.items)) }
    ensures objective { IfOk result (λ listed.
        option_copied listed.objective ≡ first_objective undos.now) }
{
    let groups = list_groups(alloc, undos)?;
    let rows = list_rows(alloc, undos)?;
    Ok(ListedChanges {
        groups,
        rows,
        objective: first_objective(undos),
    })
}

fn list_groups<'a>(alloc: Global, undos: &'a [Undo]) -> Result<Vec<&'a Change<Group>>, Memory>
    ensures { IfOk result (λ list.
        AreFirst (flat_map (λ u. u.groups) undos.now) (map (λ c. c.now) list.items)) }
{
    let mut changes = Vec::new(alloc);
    for undo in undos {
        list_changes(undo.groups.as_slice(), &mut changes)?;
    }
    first_of_each(changes)
}

fn list_rows<'a>(alloc: Global, undos: &'a [Undo]) -> Result<Vec<&'a Change<Row>>, Memory>
    ensures { IfOk result (λ list.
        AreFirst (flat_map (λ u. u.rows) undos.now) (map (λ c. c.now) list.items)) }
{
    let mut changes = Vec::new(alloc);
    for undo in undos {
        list_changes(undo.rows.as_slice(), &mut changes)?;
    }
    first_of_each(changes)
}

fn list_changes<'a, X>(
    changes: &'a [Change<X>],
    list: &mut Vec<&'a Change<X>>,
) -> Result<(), Memory>
    ensures { OnOk result (map (λ c. c.now) list.new.items
        ≡ map (λ c. c.now) list.old.items ++ changes.now) }
{
    for change in changes {
        list.push(change)?;
    }
    Ok(())
}

// The first change of each number, in the order of the numbers.
fn first_of_each<'a, X>(mut changes: Vec<&'a Change<X>>) -> Result<Vec<&'a Change<X>>, Memory>
    ensures { IfOk result (λ first.
        AreFirst (map (λ c. c.now) changes.entry.items) (map (λ c. c.now) first.items)) }
{
    changes.sort_by_key(|change| change.number)?;
    changes.dedup_by_key(|change| change.number);
    Ok(changes)
}

fn first_objective(undos: &[Undo]) -> Option<&Objective>
    ensures { option_copied result ≡ first_objective undos.now }
{
    for undo in undos {
        if let Some(content) = &undo.objective {
            return Some(content);
        }
    }
    None
}
