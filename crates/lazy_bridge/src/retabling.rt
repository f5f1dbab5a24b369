//! Another table for a bridged model: what it bridges otherwise is planned, and then put in the place
//! of what was held.
ghost use Rattle.item_core.specs.declared.table.Table.{Table};
ghost use Rattle.lazy_bridge.specs.Tables.{IsRetabledTo, IsTableStart};

use crate::pushing::{change_touched, plan_touched};
use address_map::AddressMap;
use aff_core::Address;
use bridge_face::Bridge;
use bridge_set::BridgeSet;
use model_bridging::PushFault;
use model_store::{CountedView, UserModel};
use solver_store::SolverModel;
use std::alloc::Global;
use table_change::{Choices, changed_kinds, find_changed, list_choices};

// Bridges a model anew whose fresh bridging by other choices stands. The answer is the number of
// addresses at which the leaves differ. After `Memory` some of this may be done.
pub(crate) fn retable<B: Bridge>(
    alloc: Global,
    bridges: &mut BridgeSet<B>,
    solver: &mut SolverModel,
    map: &mut AddressMap,
    objective_at: &mut Address,
    model: &UserModel,
    before: &Choices,
) -> Result<u128, PushFault>
    requires { (table : Table) × IsTableStart bridges.old table before.now solver.old map.old
        objective_at.old model.now.model }
    ensures retabled { (table : Table)
        → (start : IsTableStart bridges.old table before.now solver.old map.old objective_at.old
        model.now.model)
        → IsRetabledTo bridges.old table before.now solver.old map.old objective_at.old
        model.now.model start result bridges.new solver.new map.new objective_at.new }
{
    let now = list_choices(bridges);
    let kinds = changed_kinds(before, &now);
    let differing = find_changed(alloc, map, model, &kinds)?;
    let mut reading = CountedView::new(model);
    let planned = plan_touched(alloc, bridges, map, &mut reading, &differing)?;
    let changed = change_touched(
        alloc,
        bridges,
        solver,
        map,
        objective_at,
        &differing,
        planned,
    )?;
    Ok(changed)
}
