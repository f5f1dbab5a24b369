//! An edit of a bridged model: what it touches is planned, and then put in the place of what was held.
ghost use Rattle.std.specs.Prelude.{◌≡◌, ◌≤◌, ◌+◌, ◌++◌, IfOk, OnOk, None, flat_map, length};
ghost use Rattle.std.specs.List.{filter_map};
ghost use Rattle.std.specs.Option.{option_copied};
ghost use Rattle.address_map.specs.Noted.{noted_items};
ghost use Rattle.bridge_set.specs.Bridges.{means_of, setting_of};
ghost use Rattle.bridge_set.specs.Turns.{turns_of};
ghost use Rattle.found_plan.specs.Read.{named_by, own_entries, read_entries};
ghost use Rattle.fresh_bridging.specs.Entries.{expression_in};
ghost use Rattle.lazy_bridge.specs.Steps.{AreGroupsOf, IsChangedOf, IsEditOf, IsEditPlanned, IsFoundBy, IsHeldBy, IsPassedBy, IsPlannedOf, IsPushedTo, IsStart, changing_variables, parts_of};
ghost use Rattle.local_laws.specs.Unlisted.{LeadBackTo, entries_of};
ghost use Rattle.push_laws.specs.Edits.{AttachedEdit, IsMappedAnew, missing_groups};
ghost use Rattle.touched_items.specs.DifferenceLaws.{HasDifferences};
ghost use Rattle.touched_items.specs.Differences.{differing_addresses, groups_in};
ghost use Rattle.touched_items.specs.Results.{found_rows};
ghost use Rattle.touched_items.specs.Search.{AreInOrder, objective_among, row_at};
ghost use Rattle.user_model.specs.Model.{ModelValue};

use crate::alike::name_alike;
use crate::expressing::{express_groups, forget_groups};
use crate::mentions::note_contents;
use address_map::AddressMap;
use aff_core::Address;
use bridge_face::Bridge;
use bridge_plan::{Plan, Standing};
use bridge_set::BridgeSet;
use found_plan::{check_found, old_leaves, standing_for};
use leaf_update::{change_leaves, gone_among};
use lists::Memory;
use model_bridging::{PushFault, check_found_groups, plan_found_groups, plan_found_others};
use model_store::{CountedView, Undo};
use solver_store::SolverModel;
use std::alloc::Global;
use touched_items::{
    Differing, FoundItems, changed_variables, compare_listed, find_items, list_undos, own_variables,
};

// Most edits make no more leaves and no more nodes than this. Such a list takes less than a kilobyte;
// for a larger block `malloc` first gathers what was freed.
const USUAL: usize = 3;

// What is planned of all that an edit touches.
#[derive(Drop)]
pub(crate) struct Planned {
    // the addresses of these items, in their order
    pub(crate) found: Vec<Address>,
    // their leaves and nodes
    pub(crate) plan: Plan,
    // what stands for the variables of the groups that differ
    pub(crate) standing: Standing,
}

// Bridges the model that is read. The undos lead back from it to the model whose fresh bridging is
// held. The answer is the number of addresses at which the leaves differ. After `Memory` some of this
// may be done.
pub(crate) fn push_touched<'a, B: Bridge>(
    alloc: Global,
    bridges: &mut BridgeSet<B>,
    solver: &mut SolverModel,
    map: &mut AddressMap,
    objective_at: &mut Address,
    after: &mut CountedView<'a>,
    undos: &'a [Undo],
) -> Result<u128, PushFault>
    requires { (model : ModelValue) × IsStart bridges.old solver.old map.old objective_at.old model
        undos.now after.old.model }
    ensures pushed { (model : ModelValue)
        → (start : IsStart bridges.old solver.old map.old objective_at.old model undos.now
        after.old.model)
        → IsPushedTo (parts_of bridges.old solver.old map.old objective_at.old after.old.reads) model
        undos.now after.old.model start result
        (parts_of bridges.new solver.new map.new objective_at.new after.new.reads) }
    ensures model { after.new.model ≡ after.old.model }
{
    let differing = find_differing(alloc, after, undos)?;
    let planned = plan_touched(alloc, bridges, map, after, &differing)?;
    let changed = change_touched(
        alloc,
        bridges,
        solver,
        map,
        objective_at,
        &differing,
        planned,
    )?;
    Ok(changed)
}

// The items that differ from what they were before undos, which are read once each.
fn find_differing<'a>(
    alloc: Global,
    reading: &mut CountedView<'a>,
    undos: &'a [Undo],
) -> Result<Differing<'a>, Memory>
    requires { (model : ModelValue) × LeadBackTo model undos.now reading.old.model }
    ensures differs { IfOk result (λ d. (model : ModelValue)
        → LeadBackTo model undos.now reading.old.model
        → HasDifferences model reading.old.model d) }
    ensures model { reading.new.model ≡ reading.old.model }
    ensures reads { OnOk result (reading.new.reads ≤ reading.old.reads + entries_of undos.now) }
{
    let listed = list_undos(alloc, undos)?;
    compare_listed(alloc, reading, &listed)
}

// Plans what an edit touches, and changes nothing but the bridges' turns.
pub(crate) fn plan_touched<'a, B: Bridge>(
    alloc: Global,
    bridges: &mut BridgeSet<B>,
    map: &AddressMap,
    reading: &mut CountedView<'a>,
    differing: &Differing<'a>,
) -> Result<Planned, PushFault>
    requires { (e : AttachedEdit) × IsEditOf e bridges.old map.now reading.old.model differing.now }
    ensures made { (e : AttachedEdit) → IsEditOf e bridges.old map.now reading.old.model differing.now
        → IsEditPlanned e result }
    ensures means { means_of bridges.new ≡ means_of bridges.old }
    ensures turns { IfOk result (λ planned. turns_of bridges.new.states
        ≤ turns_of bridges.old.states + length planned.plan.nodes.items) }
    ensures model { reading.new.model ≡ reading.old.model }
    ensures reads { IfOk result (λ planned. reading.new.reads
        ≤ reading.old.reads + length planned.found.items) }
{
    check_found_groups(bridges, &differing.after.groups)?;
    let mut plan = Plan::with_capacity(alloc, USUAL)?;
    let entries = match plan_found_groups(alloc, bridges, &mut plan, &differing.after.groups) {
        Ok(entries) => entries,
        Err(fault) => {
            check_all(alloc, bridges, map, reading, differing)?;
            return Err(fault);
        }
    };
    let standing = Standing::of(alloc, entries)?;
    let found = plan_found(
        alloc, bridges, map, reading, differing, &standing, &mut plan,
    )?;
    Ok(Planned {
        found,
        plan,
        standing,
    })
}

// Plans the rows and the objective that the search finds, after the groups that differ. The answer is
// the addresses of all that is found.
fn plan_found<'a, B: Bridge>(
    alloc: Global,
    bridges: &mut BridgeSet<B>,
    map: &AddressMap,
    reading: &mut CountedView<'a>,
    differing: &Differing<'a>,
    standing: &Standing,
    plan: &mut Plan,
) -> Result<Vec<Address>, PushFault>
    requires { (e : AttachedEdit) × IsEditOf e bridges.old map.now reading.old.model differing.now
        × AreGroupsOf e standing.now plan.old }
    ensures made { (e : AttachedEdit) → IsEditOf e bridges.old map.now reading.old.model differing.now
        → AreGroupsOf e standing.now plan.old
        → IsFoundBy result (λ found. found.items) e standing.now plan.new }
    ensures means { means_of bridges.new ≡ means_of bridges.old }
    ensures turns { OnOk result (turns_of bridges.new.states + length plan.old.nodes.items
        ≤ turns_of bridges.old.states + length plan.new.nodes.items) }
    ensures model { reading.new.model ≡ reading.old.model }
    ensures reads { IfOk result (λ found. reading.new.reads
        ≤ reading.old.reads + length found.items) }
{
    let found = find_touched(alloc, reading, map, differing, standing)?;
    check_found(
        alloc,
        bridges,
        map,
        &differing.after.groups,
        &found.rows,
        found.objective,
    )?;
    let mut further = stand_for_found(alloc, standing, map, differing, &found)?;
    plan_found_others(
        alloc,
        bridges,
        plan,
        &mut further,
        &found.rows,
        found.objective,
    )?;
    let FoundItems { addresses, .. } = found;
    Ok(addresses)
}

// The items that differ, and the rows and the objective that are noted at the variables that change.
fn find_touched<'a>(
    alloc: Global,
    reading: &mut CountedView<'a>,
    map: &AddressMap,
    differing: &Differing<'a>,
    standing: &Standing,
) -> Result<FoundItems<'a>, Memory>
    ensures order { IfOk result (λ found. AreInOrder (differing_addresses differing.now
        ++ flat_map (noted_items map.now.noted)
        (changing_variables map.now standing.now differing.now)) found.addresses.items) }
    ensures rows { IfOk result (λ found. found_rows found
        ≡ filter_map (row_at reading.old.model) found.addresses.items) }
    ensures objective { IfOk result (λ found. option_copied found.objective
        ≡ objective_among reading.old.model found.addresses.items) }
    ensures model { reading.new.model ≡ reading.old.model }
    ensures reads { IfOk result (λ found. reading.new.reads
        ≤ reading.old.reads + length found.addresses.items) }
{
    let vars = own_variables(alloc, differing)?;
    let changed = changed_variables(alloc, map, standing, &vars)?;
    let found = find_items(alloc, reading, map, differing, &changed)?;
    Ok(found)
}

// What stands for the variables that found items name: for those of the groups that differ what the
// standing has, and for others what the map has.
fn stand_for_found(
    alloc: Global,
    standing: &Standing,
    map: &AddressMap,
    differing: &Differing<'_>,
    found: &FoundItems<'_>,
) -> Result<Standing, Memory>
    ensures { IfOk result (λ further. expression_in further
        ≡ expression_in (own_entries standing.now (groups_in differing.now.after)
        ++ read_entries map.now (named_by (found_rows found.now)
        (option_copied found.now.objective)))) }
{
    let after = &differing.after;
    let rows = &found.rows;
    let further = standing_for(alloc, standing, map, &after.groups, rows, found.objective)?;
    Ok(further)
}

// Refuses the first item without a tree, where a number of the groups doesn't fit: items are found by
// all variables of the groups that differ.
fn check_all<'a, B: Bridge>(
    alloc: Global,
    bridges: &BridgeSet<B>,
    map: &AddressMap,
    reading: &mut CountedView<'a>,
    differing: &Differing<'a>,
) -> Result<(), PushFault>
    ensures passed { (e : AttachedEdit) → IsEditOf e bridges.now map.now reading.old.model differing.now
        → missing_groups e ≡ None → IsPassedBy e result }
    ensures model { reading.new.model ≡ reading.old.model }
{
    let vars = own_variables(alloc, differing)?;
    let found = find_items(alloc, reading, map, differing, &vars)?;
    check_found(
        alloc,
        bridges,
        map,
        &differing.after.groups,
        &found.rows,
        found.objective,
    )
}

// Puts what is planned in the place of what was held. The answer is the number of addresses at which
// the leaves differ. After `Memory` some of this may be done.
pub(crate) fn change_touched<B: Bridge>(
    alloc: Global,
    bridges: &mut BridgeSet<B>,
    solver: &mut SolverModel,
    map: &mut AddressMap,
    objective_at: &mut Address,
    differing: &Differing<'_>,
    planned: Planned,
) -> Result<u128, Memory>
    requires { (e : AttachedEdit)
        × IsHeldBy e bridges.old solver.old map.old objective_at.old differing.now
        × IsPlannedOf e planned.standing planned.found.items planned.plan }
    ensures changed { IfOk result (λ n. (e : AttachedEdit)
        → IsHeldBy e bridges.old solver.old map.old objective_at.old differing.now
        → (made : IsPlannedOf e planned.standing planned.found.items planned.plan)
        → IsChangedOf e made.step bridges.old solver.old map.old objective_at.old n
        bridges.new solver.new map.new objective_at.new) }
    ensures setting { setting_of bridges.new ≡ setting_of bridges.old }
{
    let Planned {
        found,
        plan,
        standing,
    } = planned;
    let Plan { leaves, nodes } = plan;
    let old_leaves = old_leaves(
        alloc,
        map,
        solver,
        objective_at,
        &differing.before.groups,
        &found,
    )?;
    let gone = gone_among(alloc, &old_leaves, &leaves)?;
    bridges.let_found_go(&found);
    let changed = change_leaves(alloc, solver, map, objective_at, &gone, &leaves)?;
    bridges.keep_each(nodes)?;
    change_entries(map, differing, &standing)?;
    Ok(changed)
}

// Sets anew what the map has of the items that differ: the expressions of their variables, and what
// they mention.
fn change_entries(
    map: &mut AddressMap,
    differing: &Differing<'_>,
    standing: &Standing,
) -> Result<(), Memory>
    ensures anew { OnOk result ((e : AttachedEdit) → map.old.exprs ≡ e.places.exprs
        → map.old.kept ≡ e.places.kept → map.old.noted ≡ e.places.noted
        → differing.now ≡ e.d → IsMappedAnew e standing.now map.new) }
    ensures vars { map.new.vars ≡ map.old.vars }
    ensures rows { map.new.rows ≡ map.old.rows }
{
    forget_groups(map, &differing.before.groups);
    express_groups(map, standing, &differing.after.groups)?;
    // where a set or a constant changes, notes stay
    if name_alike(&differing.before, &differing.after) {
        return Ok(());
    }
    note_contents(map, &differing.before, false)?;
    note_contents(map, &differing.after, true)
}
