//! The change step: a plan is put in the place of what is held.
ghost use Rattle.std.specs.Prelude.{◌≡◌, ◌-◌, ◌^◌, All, IfOk, OnOk, min};
ghost use Rattle.std.specs.Prelude as prelude;
ghost use Rattle.std.specs.FinMap as finite;
ghost use Rattle.aff_core.specs.Address.{address_cmp};
ghost use Rattle.aff_core.specs.Rising.{HasDistinctKeys};
ghost use Rattle.bridge_set.specs.Bridges.{families_of, kept_by, keeping};
ghost use Rattle.fresh_bridging.specs.Leaves.{leaf_model_of};
ghost use Rattle.leaf_update.specs.Named.{NamesEach};
ghost use Rattle.leaf_update.specs.Splice.{IsChangedTo};
ghost use Rattle.lazy_bridge.specs.Mentioned.{IsMentionIndex, marks_of};
ghost use Rattle.lazy_bridge.specs.Plans.{IsPuttable, with_exprs};
ghost use Rattle.solver_store.specs.SolverModel.{no_leaves};

use crate::marks::mark_variables;
use crate::mentions::note_model;
use address_map::AddressMap;
use aff_core::{Address, Aff};
use bridge_face::Bridge;
use bridge_set::BridgeSet;
use leaf_update::replace_leaves;
use lists::Memory;
use model_bridging::ModelPlan;
use model_store::UserModel;
use solver_store::SolverModel;
use std::alloc::Global;

// Puts a model's plan in, where no node and no expression is held: the leaves that there are are
// changed in place, and mentions and kept variables are noted anew. The answer is the number of
// addresses at which the leaves differ.
pub(crate) fn put_model<B: Bridge>(
    alloc: Global,
    bridges: &mut BridgeSet<B>,
    solver: &mut SolverModel,
    map: &mut AddressMap,
    objective_at: &mut Address,
    planned: ModelPlan,
    model: &UserModel,
) -> Result<u128, Memory>
    requires planned { IsPuttable (families_of bridges.old.states) planned }
    requires empty { All (λ s. s.kept ≡ finite.empty) bridges.old.states }
    requires exprs { map.old.exprs ≡ finite.empty }
    requires named { NamesEach map.old solver.old.leaves }
    ensures changed { IfOk result (λ n. IsChangedTo (leaf_model_of planned.plan.leaves.items)
        solver.old (with_exprs map.old planned.exprs.items) objective_at.old n
        solver.new map.new objective_at.new) }
    ensures kept { OnOk result (kept_by bridges.new.states
        ≡ prelude.map (keeping planned.plan.nodes.items) bridges.old.states) }
    ensures noted { OnOk result (IsMentionIndex model.now.model map.new.noted) }
    ensures marks { OnOk result (map.new.kept ≡ marks_of planned.kept.items) }
    ensures families { families_of bridges.new.states ≡ families_of bridges.old.states }
    ensures table { bridges.new.table ≡ bridges.old.table }
{
    let ModelPlan { plan, exprs, kept } = planned;
    bridges.keep_all(plan.nodes)?;
    put_expressions(map, exprs)?;
    let changed = replace_leaves(alloc, solver, map, objective_at, &plan.leaves)?;
    mark_variables(map, &kept)?;
    note_model(map, model)?;
    Ok(changed)
}

// Puts expressions in, each of a variable of its own.
fn put_expressions(map: &mut AddressMap, exprs: Vec<(Address, Aff)>) -> Result<(), Memory>
    requires none { map.old.exprs ≡ finite.empty }
    requires apart { HasDistinctKeys address_cmp exprs.items }
    ensures exprs { OnOk result (map.new.exprs ≡ finite.from_entries exprs.items) }
    ensures vars { map.new.vars ≡ map.old.vars }
    ensures rows { map.new.rows ≡ map.old.rows }
    ensures noted { map.new.noted ≡ map.old.noted }
    ensures kept { map.new.kept ≡ map.old.kept }
{
    for (at, func) in exprs {
        drop(map.put_expr(at, func)?);
    }
    Ok(())
}

// Frees all that is kept.
pub(crate) fn let_all_go<B: Bridge>(
    bridges: &mut BridgeSet<B>,
    solver: &mut SolverModel,
    map: &mut AddressMap,
)
    ensures empty { All (λ s. s.kept ≡ finite.empty) bridges.new.states }
    ensures families { families_of bridges.new.states ≡ families_of bridges.old.states }
    ensures table { bridges.new.table ≡ bridges.old.table }
    ensures choices { bridges.new.choices ≡ bridges.old.choices }
    ensures leaves { solver.new.leaves ≡ no_leaves solver.new.leaves.calls }
    ensures calls { solver.new.leaves.calls ≡ solver.old.leaves.calls }
    ensures vars { map.new.vars.indices ≡ finite.empty }
    ensures rows { map.new.rows.indices ≡ finite.empty }
    ensures exprs { map.new.exprs ≡ finite.empty }
    ensures noted { map.new.noted ≡ finite.empty }
    ensures marks { map.new.kept ≡ finite.empty }
    ensures named { NamesEach map.new solver.new.leaves }
{
    bridges.clear();
    solver.clear();
    map.clear();
}

// A count, or the largest number of 64 bits.
pub(crate) fn capped(count: u128) -> u64
    ensures { result ≡ min count (2 ^ 64 - 1) }
{
    u64::try_from(count).unwrap_or(u64::MAX)
}
