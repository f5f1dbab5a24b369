//! The objective set or removed.
ghost use Rattle.std.specs.Prelude.{◌≡◌, ◌≤◌, ◌∷◌, [], All, Contains, IfOk, IfSome, IsNone, MatchBool, Some, flat_map, length};
ghost use Rattle.fresh_bridging.specs.Leaves.{leaf_objectives};
ghost use Rattle.leaf_update.specs.Named.{HasIndices, NamesEach, ObjectiveNames};
ghost use Rattle.leaf_model.specs.LeafModel.{Differ, IsCountOf};
ghost use Rattle.leaf_model.specs.ReadThrough.{read_objective, read_through};
ghost use Rattle.leaf_update.specs.Objective.{CanChange, ChangesObjective, SetsObjective, objective_in, only};

use crate::indexed::leaf_objective;
use crate::same::same_objective;
use address_map::AddressMap;
use aff_core::Address;
use item_core::{Body, Item};
use lists::Memory;
use solver_store::{LeafObjective, SolverModel};
use std::alloc::Global;

// Sets the objective among leaves in the place of the one before, or removes what goes. The answer
// is the number of addresses at which something changed: two where the objective is set at another
// address, by one call.
pub(crate) fn change_objective(
    alloc: Global,
    solver: &mut SolverModel,
    map: &AddressMap,
    at: &mut Address,
    gone: &[Address],
    leaves: &[Item],
) -> Result<u8, Memory>
    requires indexed { All (HasIndices map.now.vars.indices) leaves.now }
    requires named { NamesEach map.now solver.old.leaves }
    requires one { length (flat_map leaf_objectives leaves.now) ≤ 1 }
    requires can { CanChange (read_through map.now solver.old.leaves at.old).objective gone.now
        (flat_map leaf_objectives leaves.now) }
    ensures changed { IfOk result (λ n. ChangesObjective map.now solver.old.leaves at.old gone.now
        (flat_map leaf_objectives leaves.now) n solver.new.leaves at.new) }
    ensures few { IfOk result (λ n. n ≤ 2) }
{
    let Some(leaf) = objective_among(leaves) else {
        if gone.is_empty() {
            return Ok(0);
        }
        // what this ensures of the count
        let _few = solver.calls();
        solver.set_objective(None);
        return Ok(1);
    };
    let changed = set_objective(alloc, solver, map, at, leaf)?;
    Ok(changed)
}

fn objective_among(leaves: &[Item]) -> Option<&Item>
    requires one { length (flat_map leaf_objectives leaves.now) ≤ 1 }
    ensures none { IsNone result → flat_map leaf_objectives leaves.now ≡ [] }
    ensures among { IfSome result (λ leaf. Contains leaves.now leaf.now) }
    ensures one { IfSome result (λ leaf. leaf_objectives leaf.now
        ≡ (leaf.now.at, leaf.now.body) ∷ []) }
    ensures all { IfSome result (λ leaf. flat_map leaf_objectives leaves.now
        ≡ (leaf.now.at, leaf.now.body) ∷ []) }
{
    for leaf in leaves {
        if is_objective(leaf) {
            return Some(leaf);
        }
    }
    None
}

pub(crate) fn is_objective(leaf: &Item) -> bool
    ensures { MatchBool result (leaf_objectives leaf.now ≡ (leaf.now.at, leaf.now.body) ∷ [])
        (leaf_objectives leaf.now ≡ []) }
{
    matches!(&leaf.body, Body::PlainObj { .. } | Body::AffineObj { .. })
}

fn set_objective(
    alloc: Global,
    solver: &mut SolverModel,
    map: &AddressMap,
    at: &mut Address,
    leaf: &Item,
) -> Result<u8, Memory>
    requires indexed { HasIndices map.now.vars.indices leaf.now }
    requires named { NamesEach map.now solver.old.leaves }
    requires objective { leaf_objectives leaf.now ≡ (leaf.now.at, leaf.now.body) ∷ [] }
    ensures set { IfOk result (λ n. SetsObjective map.now solver.old.leaves at.old
        leaf.now.at leaf.now.body n solver.new.leaves at.new) }
    ensures few { IfOk result (λ n. n ≤ 2) }
{
    // what this ensures of the count
    let _few = solver.calls();
    let Some(objective) = leaf_objective(alloc, map, leaf)? else {
        unreachable!()
    };
    let changed = count_differing(solver, map, at, leaf, &objective);
    if changed == 0 {
        return Ok(0);
    }
    solver.set_objective(Some(objective));
    *at = leaf.at;
    Ok(changed)
}

// The number of addresses at which the objective is another than the leaf, of which this one is made.
fn count_differing(
    solver: &SolverModel,
    map: &AddressMap,
    at: &Address,
    leaf: &Item,
    objective: &LeafObjective,
) -> u8
    requires named { NamesEach map.now solver.now.leaves }
    requires names { ObjectiveNames map.now.vars.indices objective.now }
    requires read { read_objective map.now.vars.indices objective.now ≡ leaf.now.body }
    ensures counted { IsCountOf
        (Differ (read_through map.now solver.now.leaves at.now).objective
        (only leaf.now.at leaf.now.body)) result }
    ensures same { result ≡ 0 → (at.now ≡ leaf.now.at)
        × (objective_in map.now solver.now.leaves ≡ Some leaf.now.body) }
    ensures few { result ≤ 2 }
{
    // what this ensures of the map
    let _one_to_one = map.var_at(0);
    let Some(held) = solver.objective() else {
        return 1;
    };
    if leaf.at != *at {
        return 2;
    }
    if same_objective(held, objective) {
        return 0;
    }
    1
}
