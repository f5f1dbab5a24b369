//! Some of the user's items, in the order of a search, rewritten without the rest of the model.
ghost use Rattle.std.specs.Prelude.{◌≡◌, ◌≤◌, ◌+◌, [], All, IfOk, OnOk, length, map};
ghost use Rattle.std.specs.Option.{option_copied};
ghost use Rattle.aff_core.specs.Address.{Address};
ghost use Rattle.item_core.specs.Kind.{kind_count};
ghost use Rattle.fresh_bridging.specs.Entries.{put_in};
ghost use Rattle.fresh_bridging.specs.ModelImage.{group_item, row_item};
ghost use Rattle.bridge_plan.specs.AddsHeld.{AddsHeld};
ghost use Rattle.bridge_plan.specs.Worked.{IsItemWithinLevels, worked, worked_each, worked_in};
ghost use Rattle.model_bridging.specs.Found.{found_others, kept_over};
ghost use Rattle.model_bridging.specs.Kinds.{first_missing, kind_by, kinds_as_they_stand, told};
ghost use Rattle.model_bridging.specs.ModelHeld.{unfit, unfit_put};
ghost use Rattle.model_bridging.specs.PlanOutcome.{KindsOutcome, PlanOutcome};

use crate::PushFault;
use crate::kinds::{check_kind, check_objective, keeps, row_kind, tell};
use crate::model_items::item_of_group;
use crate::model_plan::{LEVELS, plan_objective, plan_row, refused};
use aff_core::{Address, ByAddress, Root};
use bridge_plan::{Entry, Plan, Rewriter, Standing, plan_item};
use item_core::group_kind;
use lists::Memory;
use std::alloc::Global;
use user_model::{Group, Objective, Row};

/// Refuses the first of these groups that has no tree.
pub fn check_found_groups<R: Rewriter>(rewriter: &R, groups: &[&Group]) -> Result<(), PushFault>
    ensures { KindsOutcome result (first_missing (R.means rewriter.now).choice
        (kinds_as_they_stand (map group_item (map (λ g. g.now) groups.now)))) }
{
    for group in groups {
        check_kind(rewriter, group_kind(&group.set))?;
    }
    Ok(())
}

/// Tells of each variable of these groups whether it is kept, by the first group's kind that has it.
pub fn tell_groups<R: Rewriter>(
    rewriter: &R,
    kept: &mut ByAddress<bool>,
    groups: &[&Group],
) -> Result<(), Memory>
    ensures { OnOk result ((v : Address) → told kept.new v
        ≡ kept_over (R.means rewriter.now).choice (told kept.old)
        (map group_item (map (λ g. g.now) groups.now)) v) }
{
    for group in groups.iter().rev() {
        let stays = keeps(rewriter, group_kind(&group.set));
        tell(kept, group.vars.as_slice(), stays)?;
    }
    Ok(())
}

/// Plans these groups one after another, and answers the expressions of their variables. `Overflow`
/// with the address of the first at or below which a number doesn't fit.
pub fn plan_found_groups<R: Rewriter>(
    alloc: Global,
    rewriter: &mut R,
    plan: &mut Plan,
    groups: &[&Group],
) -> Result<Vec<Entry>, PushFault>
    requires { All (IsItemWithinLevels (R.means rewriter.old).choice kind_count)
        (map group_item (map (λ g. g.now) groups.now)) }
    ensures answer { let choice = (R.means rewriter.old).choice in
        let items = map group_item (map (λ g. g.now) groups.now) in
        PlanOutcome result (unfit choice kind_count items) (λ entries.
        AddsHeld plan.old plan.new [] entries.items
        (worked_each choice (worked choice kind_count) items)) }
    ensures means { R.means rewriter.new ≡ R.means rewriter.old }
    ensures turns { OnOk result (R.turns rewriter.new + length plan.old.nodes.items
        ≤ R.turns rewriter.old + length plan.new.nodes.items) }
{
    let mut entries = Vec::new(alloc);
    for group in groups {
        let item = item_of_group(alloc, group)?;
        let at = item.at;
        match plan_item(alloc, rewriter, plan, &mut entries, item, LEVELS) {
            Ok(()) => {}
            Err(fault) => return Err(refused(fault, at)),
        }
    }
    Ok(entries)
}

/// Refuses the first of these rows, or else this objective, that has no tree, by what is said of
/// variables.
pub fn check_found_others<R: Rewriter>(
    rewriter: &R,
    kept: &ByAddress<bool>,
    rows: &[&Row],
    objective: Option<&Objective>,
) -> Result<(), PushFault>
    ensures { KindsOutcome result (first_missing (R.means rewriter.now).choice
        (map (λ i. kind_by (told kept.now) i.body)
        (found_others (map (λ r. r.now) rows.now) (option_copied objective.entry)))) }
{
    check_found_rows(rewriter, kept, rows)?;
    if let Some(objective) = objective {
        return check_objective(rewriter, kept, objective);
    }
    Ok(())
}

fn check_found_rows<R: Rewriter>(
    rewriter: &R,
    kept: &ByAddress<bool>,
    rows: &[&Row],
) -> Result<(), PushFault>
    ensures { KindsOutcome result (first_missing (R.means rewriter.now).choice
        (map (λ i. kind_by (told kept.now) i.body) (map row_item (map (λ r. r.now) rows.now)))) }
{
    for row in rows {
        check_kind(rewriter, row_kind(kept, row))?;
    }
    Ok(())
}

/// Plans these rows one after another, and then this objective, with what stands for their variables
/// put in. `Overflow` with the address of the first at or below which a number doesn't fit.
pub fn plan_found_others<R: Rewriter>(
    alloc: Global,
    rewriter: &mut R,
    plan: &mut Plan,
    standing: &mut Standing,
    rows: &[&Row],
    objective: Option<&Objective>,
) -> Result<(), PushFault>
    requires { All (λ item.
        IsItemWithinLevels (R.means rewriter.old).choice kind_count (put_in standing.old item))
        (found_others (map (λ r. r.now) rows.now) (option_copied objective)) }
    ensures answer { let choice = (R.means rewriter.old).choice in
        let others = found_others (map (λ r. r.now) rows.now) (option_copied objective.entry) in
        PlanOutcome result (unfit_put choice kind_count standing.old others) (λ _.
        AddsHeld plan.old plan.new [] []
        (worked_in choice (worked choice kind_count) standing.old others)) }
    ensures means { R.means rewriter.new ≡ R.means rewriter.old }
    ensures turns { OnOk result (R.turns rewriter.new + length plan.old.nodes.items
        ≤ R.turns rewriter.old + length plan.new.nodes.items) }
{
    plan_found_rows(alloc, rewriter, plan, standing, rows)?;
    let Some(objective) = objective else {
        return Ok(());
    };
    match plan_objective(alloc, rewriter, plan, standing, objective) {
        Ok(()) => Ok(()),
        Err(fault) => Err(refused(fault, Address::root(Root::Objective, 0))),
    }
}

fn plan_found_rows<R: Rewriter>(
    alloc: Global,
    rewriter: &mut R,
    plan: &mut Plan,
    standing: &mut Standing,
    rows: &[&Row],
) -> Result<(), PushFault>
    requires { All (λ item.
        IsItemWithinLevels (R.means rewriter.old).choice kind_count (put_in standing.old item))
        (map row_item (map (λ r. r.now) rows.now)) }
    ensures answer { let choice = (R.means rewriter.old).choice in
        let items = map row_item (map (λ r. r.now) rows.now) in
        PlanOutcome result (unfit_put choice kind_count standing.old items) (λ _.
        AddsHeld plan.old plan.new [] []
        (worked_in choice (worked choice kind_count) standing.old items)) }
    ensures means { R.means rewriter.new ≡ R.means rewriter.old }
    ensures turns { OnOk result (R.turns rewriter.new + length plan.old.nodes.items
        ≤ R.turns rewriter.old + length plan.new.nodes.items) }
    ensures same { standing.new ≡ standing.old }
{
    for row in rows {
        match plan_row(alloc, rewriter, plan, standing, row) {
            Ok(()) => {}
            Err(fault) => return Err(refused(fault, Address::root(Root::Row, row.id))),
        }
    }
    Ok(())
}
