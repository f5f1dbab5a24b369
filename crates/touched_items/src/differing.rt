//! The items that differ.
ghost use Rattle.std.specs.Prelude.{◌≡◌, ◌≤◌, ◌+◌, IfOk, Some, unwrap_or};
ghost use Rattle.std.specs.Option.{option_copied, option_map_or};
ghost use Rattle.fresh_bridging.specs.ModelImage.{objective_items};
ghost use Rattle.numbered_list.specs.Changes.{AreChanges};
ghost use Rattle.user_model.specs.Edited.{group_number, row_number};
ghost use Rattle.touched_items.specs.Differences.{AreDiffering, count_listed, listed_groups, listed_rows};
ghost use Rattle.touched_items.specs.Sides.{IsSeparated};

use crate::ListedChanges;
use crate::same::same_objective;
use crate::separating::{separate_groups, separate_rows};
use lists::Memory;
use model_store::CountedView;
use std::alloc::Global;
use user_model::{Group, Objective, Row};

/// Items of a model: groups and rows in the order of their numbers, and the objective, where it is
/// one of them.
#[derive(Debug, Drop)]
pub struct ModelItems<'a> {
    pub groups: Vec<&'a Group>,
    pub rows: Vec<&'a Row>,
    pub objective: Option<&'a Objective>,
}

/// The items whose content differs, names aside: as they were, and as they are.
#[derive(Debug, Drop)]
pub struct Differing<'a> {
    pub before: ModelItems<'a>,
    pub after: ModelItems<'a>,
}

/// Which of the listed items differ from what stands now. Each is read once.
pub fn compare_listed<'a>(
    alloc: Global,
    reading: &mut CountedView<'a>,
    listed: &ListedChanges<'a>,
) -> Result<Differing<'a>, Memory>
    requires groups { AreChanges group_number (listed_groups listed.now) }
    requires rows { AreChanges row_number (listed_rows listed.now) }
    ensures differing { IfOk result (AreDiffering listed.now reading.old.model) }
    ensures model { reading.new.model ≡ reading.old.model }
    ensures reads { reading.new.reads ≤ reading.old.reads + count_listed listed.now }
{
    let groups = separate_groups(alloc, reading, &listed.groups)?;
    let rows = separate_rows(alloc, reading, &listed.rows)?;
    let (was, is) = separate_objective(reading, listed.objective);
    Ok(Differing {
        before: ModelItems {
            groups: groups.before,
            rows: rows.before,
            objective: was,
        },
        after: ModelItems {
            groups: groups.after,
            rows: rows.after,
            objective: is,
        },
    })
}

// The objective as it was and as it is, where it is listed and differs.
fn separate_objective<'a>(
    reading: &mut CountedView<'a>,
    listed: Option<&'a Objective>,
) -> (Option<&'a Objective>, Option<&'a Objective>)
    ensures separated { let now = reading.old.model.objective in
        IsSeparated objective_items (Some (unwrap_or (option_copied listed.entry) now)) (Some now)
        (option_copied result.0) (option_copied result.1) }
    ensures model { reading.new.model ≡ reading.old.model }
    ensures reads { reading.new.reads ≤ reading.old.reads + option_map_or (λ _. 1) listed.entry 0 }
{
    let Some(was) = listed else {
        return (None, None);
    };
    let is = reading.objective();
    if same_objective(was, is) {
        return (None, None);
    }
    (Some(was), Some(is))
}
