//! The fresh bridging of a user's model, worked out before anything is changed.
ghost use Rattle.std.specs.Prelude.{◌≡◌, ◌≤◌, ◌+◌, ◌++◌, [], All, IfOk, IsTrue, OnOk, flat_map, length, map};
ghost use Rattle.ratio_core.specs.Answers.{ExactWhere};
ghost use Rattle.expansion.specs.Grown.{put_held};
ghost use Rattle.item_core.specs.declared.item.Item.{Item};
ghost use Rattle.item_core.specs.Kind.{kind_count};
ghost use Rattle.fresh_bridging.specs.Entries.{put_in};
ghost use Rattle.fresh_bridging.specs.ModelImage.{group_item, objective_items, row_item};
ghost use Rattle.fresh_bridging.specs.TheRules.{rules_by};
ghost use Rattle.bridge_plan.specs.AddsHeld.{AddsHeld};
ghost use Rattle.bridge_plan.specs.Means.{AreSound};
ghost use Rattle.bridge_plan.specs.Worked.{IsItemWithinLevels, worked, worked_each, worked_in};
ghost use Rattle.model_bridging.specs.ModelHeld.{child_fits, unfit, unfit_put};
ghost use Rattle.model_bridging.specs.PlanOutcome.{PlanOutcome, refused_at};
ghost use Rattle.model_bridging.specs.Planned.{Planned};
ghost use Rattle.model_bridging.specs.Whole.{IsWithinLevels, IsWholePlan, kept_among, unfit_item, with_function};

use crate::PushFault;
use crate::kinds::check_kinds;
use crate::model_items::item_of_group;
use aff_core::{Address, Aff, Root};
use bridge_plan::{Entry, Plan, Rewriter, Standing, plan_item};
use item_core::{Item, KIND_COUNT};
use lists::Memory;
use model_store::UserModel;
use ratio_core::NumberFault;
use std::alloc::Global;
use user_model::{GroupVar, Groups, Objective, Row, Rows};

/// How many items stand above one another at most.
pub(crate) const LEVELS: u8 = KIND_COUNT as u8;

/// The plan of a model: its leaves and nodes, each of its variables with its expression as a
/// function, and those of its variables that are kept, all in the order of the bridging.
#[derive(Debug, Drop)]
pub struct ModelPlan {
    pub plan: Plan,
    pub exprs: Vec<(Address, Aff)>,
    pub kept: Vec<Address>,
}

/// The fresh bridging of a model. `Unsupported` where an item has no tree, with the kind of the
/// first; else `Overflow` where a number that the bridging is made with doesn't fit, with the
/// address of the first of the user's items at or below which it is.
pub fn plan_model<R: Rewriter>(
    alloc: Global,
    rewriter: &mut R,
    model: &UserModel,
) -> Result<ModelPlan, PushFault>
    requires { AreSound (R.means rewriter.old) }
    ensures answer { Planned (R.means rewriter.old).setting model.now.model result }
    ensures means { R.means rewriter.new ≡ R.means rewriter.old }
{
    let groups = model.groups();
    let rows = model.rows();
    let objective = model.objective();
    check_kinds(alloc, rewriter, groups, rows, objective)?;
    plan_items(alloc, rewriter, groups, rows, objective)
}

// Plans the groups, the rows and the objective, each of which has a tree.
fn plan_items<R: Rewriter>(
    alloc: Global,
    rewriter: &mut R,
    groups: &Groups,
    rows: &Rows,
    objective: &Objective,
) -> Result<ModelPlan, PushFault>
    requires { IsWithinLevels (R.means rewriter.old).choice (map group_item groups.now.items)
        (map row_item rows.now.items ++ objective_items objective.now) }
    ensures answer { let choice = (R.means rewriter.old).choice in
        let items = map group_item groups.now.items in
        let others = map row_item rows.now.items ++ objective_items objective.now in
        PlanOutcome result (unfit_item choice items others) (IsWholePlan choice groups.now.items others) }
    ensures means { R.means rewriter.new ≡ R.means rewriter.old }
{
    let mut plan = Plan::new(alloc);
    let entries = plan_groups(alloc, rewriter, &mut plan, groups)?;
    let mut standing = Standing::of(alloc, entries)?;
    let exprs = expressions(alloc, &standing, groups)?;
    let kept = kept_variables(alloc, &standing, groups)?;
    plan_others(alloc, rewriter, &mut plan, &mut standing, rows, objective)?;
    Ok(ModelPlan { plan, exprs, kept })
}

// Plans the groups one after another, and answers the expressions of their variables.
fn plan_groups<R: Rewriter>(
    alloc: Global,
    rewriter: &mut R,
    plan: &mut Plan,
    groups: &Groups,
) -> Result<Vec<Entry>, PushFault>
    requires { All (IsItemWithinLevels (R.means rewriter.old).choice kind_count)
        (map group_item groups.now.items) }
    ensures answer { let choice = (R.means rewriter.old).choice in
        let items = map group_item groups.now.items in
        PlanOutcome result (unfit choice kind_count items) (λ entries.
        AddsHeld plan.old plan.new [] entries.items
        (worked_each choice (worked choice kind_count) items)) }
    ensures means { R.means rewriter.new ≡ R.means rewriter.old }
{
    let mut entries = Vec::new(alloc);
    for group in groups.iter() {
        let item = item_of_group(alloc, group)?;
        let at = item.at;
        match plan_item(alloc, rewriter, plan, &mut entries, item, LEVELS) {
            Ok(()) => {}
            Err(fault) => return Err(refused(fault, at)),
        }
    }
    Ok(entries)
}

// Plans the rows and then the objective, with what stands for their variables put in.
fn plan_others<R: Rewriter>(
    alloc: Global,
    rewriter: &mut R,
    plan: &mut Plan,
    standing: &mut Standing,
    rows: &Rows,
    objective: &Objective,
) -> Result<(), PushFault>
    requires { All (λ item.
        IsItemWithinLevels (R.means rewriter.old).choice kind_count (put_in standing.old item))
        (map row_item rows.now.items ++ objective_items objective.now) }
    ensures answer { let choice = (R.means rewriter.old).choice in
        let others = map row_item rows.now.items ++ objective_items objective.now in
        PlanOutcome result (unfit_put choice kind_count standing.old others) (λ _.
        AddsHeld plan.old plan.new [] []
        (worked_in choice (worked choice kind_count) standing.old others)) }
    ensures means { R.means rewriter.new ≡ R.means rewriter.old }
{
    plan_rows(alloc, rewriter, plan, standing, rows)?;
    match plan_objective(alloc, rewriter, plan, standing, objective) {
        Ok(()) => Ok(()),
        Err(fault) => Err(refused(fault, Address::root(Root::Objective, 0))),
    }
}

// Plans the rows one after another.
fn plan_rows<R: Rewriter>(
    alloc: Global,
    rewriter: &mut R,
    plan: &mut Plan,
    standing: &mut Standing,
    rows: &Rows,
) -> Result<(), PushFault>
    requires { All (λ item.
        IsItemWithinLevels (R.means rewriter.old).choice kind_count (put_in standing.old item))
        (map row_item rows.now.items) }
    ensures answer { let choice = (R.means rewriter.old).choice in
        let items = map row_item rows.now.items in
        PlanOutcome result (unfit_put choice kind_count standing.old items) (λ _.
        AddsHeld plan.old plan.new [] []
        (worked_in choice (worked choice kind_count) standing.old items)) }
    ensures means { R.means rewriter.new ≡ R.means rewriter.old }
    ensures same { standing.new ≡ standing.old }
{
    for row in rows.iter() {
        match plan_row(alloc, rewriter, plan, standing, row) {
            Ok(()) => {}
            Err(fault) => return Err(refused(fault, Address::root(Root::Row, row.id))),
        }
    }
    Ok(())
}

// Plans a row.
pub(crate) fn plan_row<R: Rewriter>(
    alloc: Global,
    rewriter: &mut R,
    plan: &mut Plan,
    standing: &mut Standing,
    row: &Row,
) -> Result<(), NumberFault>
    requires { IsItemWithinLevels (R.means rewriter.old).choice kind_count
        (put_in standing.old (row_item row.now)) }
    ensures answer { let choice = (R.means rewriter.old).choice in
        let item = row_item row.now in
        ExactWhere result (IsTrue (child_fits choice kind_count standing.old item))
        (λ _. AddsHeld plan.old plan.new [] [] (put_held (rules_by choice) standing.old item
        (worked choice kind_count (put_in standing.old item)))) }
    ensures means { R.means rewriter.new ≡ R.means rewriter.old }
    ensures turns { OnOk result (R.turns rewriter.new + length plan.old.nodes.items
        ≤ R.turns rewriter.old + length plan.new.nodes.items) }
    ensures same { standing.new ≡ standing.old }
{
    let body = standing.row_body(&row.func, &row.set)?;
    let at = Address::root(Root::Row, row.id);
    plan_further(alloc, rewriter, plan, Item { at, body })
}

// Plans the objective, if there is one.
pub(crate) fn plan_objective<R: Rewriter>(
    alloc: Global,
    rewriter: &mut R,
    plan: &mut Plan,
    standing: &mut Standing,
    objective: &Objective,
) -> Result<(), NumberFault>
    requires { All (λ item.
        IsItemWithinLevels (R.means rewriter.old).choice kind_count (put_in standing.old item))
        (objective_items objective.now) }
    ensures answer { let choice = (R.means rewriter.old).choice in
        let items = objective_items objective.now in
        let held = worked_in choice (worked choice kind_count) standing.old items in
        ExactWhere result (IsTrue held.fits) (λ _. AddsHeld plan.old plan.new [] [] held) }
    ensures means { R.means rewriter.new ≡ R.means rewriter.old }
    ensures turns { OnOk result (R.turns rewriter.new + length plan.old.nodes.items
        ≤ R.turns rewriter.old + length plan.new.nodes.items) }
{
    let at = Address::root(Root::Objective, 0);
    match objective {
        Objective::Feasibility => Ok(()),
        Objective::Plain { sense, var } => {
            let body = standing.plain_objective(*sense, var)?;
            plan_further(alloc, rewriter, plan, Item { at, body })
        }
        Objective::Affine { sense, func } => {
            let body = standing.objective_body(*sense, func)?;
            plan_further(alloc, rewriter, plan, Item { at, body })
        }
    }
}

// Plans a row or an objective that has what stands for its variables put in.
fn plan_further<R: Rewriter>(
    alloc: Global,
    rewriter: &mut R,
    plan: &mut Plan,
    item: Item,
) -> Result<(), NumberFault>
    requires { IsItemWithinLevels (R.means rewriter.old).choice kind_count item }
    ensures answer { let held = worked (R.means rewriter.old).choice kind_count item in
        ExactWhere result (IsTrue held.fits)
        (λ _. AddsHeld plan.old plan.new [] [] (record held { entries = [] })) }
    ensures means { R.means rewriter.new ≡ R.means rewriter.old }
    ensures turns { OnOk result (R.turns rewriter.new + length plan.old.nodes.items
        ≤ R.turns rewriter.old + length plan.new.nodes.items) }
{
    let mut none = Vec::new(alloc);
    plan_item(alloc, rewriter, plan, &mut none, item, LEVELS)
}

// Why the user's item at an address isn't planned.
pub(crate) fn refused(fault: NumberFault, at: Address) -> PushFault
    ensures { result ≡ refused_at fault at }
{
    match fault {
        NumberFault::Overflow => PushFault::Overflow { at },
        NumberFault::Memory => PushFault::Memory,
    }
}

// Each variable with its expression as a function.
fn expressions(
    alloc: Global,
    standing: &Standing,
    groups: &Groups,
) -> Result<Vec<(Address, Aff)>, Memory>
    ensures { IfOk result (λ exprs. exprs.items
        ≡ map (with_function standing.now) (flat_map (λ g. g.vars) groups.now.items)) }
{
    let mut exprs = Vec::new(alloc);
    for group in groups.iter() {
        push_expressions(&mut exprs, standing, group.vars.as_slice())?;
    }
    Ok(exprs)
}

fn push_expressions(
    exprs: &mut Vec<(Address, Aff)>,
    standing: &Standing,
    vars: &[GroupVar],
) -> Result<(), Memory>
    ensures { OnOk result (exprs.new.items ≡ exprs.old.items
        ++ map (with_function standing.now) vars.now) }
{
    for var in vars {
        let at = Address::root(Root::Variable, var.number);
        exprs.push((at, standing.function(&at)?))?;
    }
    Ok(())
}

// The variables for which a variable stands as it is.
fn kept_variables(
    alloc: Global,
    standing: &Standing,
    groups: &Groups,
) -> Result<Vec<Address>, Memory>
    ensures { IfOk result (λ kept. kept.items
        ≡ kept_among standing.now (flat_map (λ g. g.vars) groups.now.items)) }
{
    let mut kept = Vec::new(alloc);
    for group in groups.iter() {
        push_kept(&mut kept, standing, group.vars.as_slice())?;
    }
    Ok(kept)
}

fn push_kept(kept: &mut Vec<Address>, standing: &Standing, vars: &[GroupVar]) -> Result<(), Memory>
    ensures { OnOk result (kept.new.items ≡ kept.old.items ++ kept_among standing.now vars.now) }
{
    for var in vars {
        let at = Address::root(Root::Variable, var.number);
        if standing.kept(&at).is_some() {
            kept.push(at)?;
        }
    }
    Ok(())
}
