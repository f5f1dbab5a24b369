//! Leaf rows set and removed, one after another.
ghost use Rattle.std.specs.Prelude.{◌≡◌, ◌↔◌, ◌≤◌, ◌∷◌, [], All, AllPairs, IfOk, IsSome, IsTrue, MatchBool, Some, flat_map, length};
ghost use Rattle.std.specs.FinMap as finite;
ghost use Rattle.fresh_bridging.specs.Leaves.{leaf_rows};
ghost use Rattle.leaf_model.specs.ReadThrough.{read_row};
ghost use Rattle.leaf_update.specs.Leaves.{HasNativeForm};
ghost use Rattle.leaf_update.specs.Named.{HasIndices, NamesEach, RowNames};
ghost use Rattle.leaf_update.specs.Puts.{rows_in};
ghost use Rattle.leaf_update.specs.Phases.{DropsRows, SetsRows};
ghost use Rattle.leaf_update.specs.Splice.{HaveDistinctKeys};
ghost use Rattle.leaf_update.specs.Steps.{DropsRow, SetsRow};

use crate::indexed::leaf_row;
use crate::same::same_row;
use address_map::AddressMap;
use aff_core::Address;
use item_core::{Body, Item};
use lists::Memory;
use solver_store::{LeafRow, SolverModel};
use std::alloc::Global;

// Sets a leaf's row: it is added, or changed in place, or the same already. The answer is 1 where
// something changed.
fn set_row(
    alloc: Global,
    solver: &mut SolverModel,
    map: &mut AddressMap,
    leaf: &Item,
) -> Result<u8, Memory>
    requires form { HasNativeForm leaf.now.body }
    requires indexed { HasIndices map.old.vars.indices leaf.now }
    requires row { leaf_rows leaf.now ≡ (leaf.now.at, leaf.now.body) ∷ [] }
    requires named { NamesEach map.old solver.old.leaves }
    ensures set { IfOk result (λ n. SetsRow map.old solver.old.leaves leaf.now.at leaf.now.body n
        map.new solver.new.leaves) }
    ensures few { IfOk result (λ n. n ≤ 1) }
{
    // what these ensure of the count and of the map
    let _few = solver.calls();
    let _one_to_one = map.row_at(0);
    let Some(row) = leaf_row(alloc, map, leaf)? else {
        unreachable!()
    };
    let Some(i) = map.row_index(&leaf.at) else {
        let i = solver.add_row(row)?;
        map.put_row(leaf.at, i)?;
        return Ok(1);
    };
    if is_same(solver, map, &leaf.at, i, &row) {
        return Ok(0);
    }
    drop(solver.change_row(i, row));
    Ok(1)
}

// Removes a leaf row.
fn drop_row(solver: &mut SolverModel, map: &mut AddressMap, at: &Address)
    requires named { NamesEach map.old solver.old.leaves }
    requires there { IsSome (finite.get map.old.rows.indices at.now) }
    ensures dropped { DropsRow map.old solver.old.leaves at.now 1 map.new solver.new.leaves }
{
    // what these ensure of the count and of the map
    let _few = solver.calls();
    let _one_to_one = map.row_at(0);
    let Some(i) = map.drop_row(at) else {
        unreachable!()
    };
    drop(solver.remove_row(i));
}

// Sets the rows among leaves. The answer is how many were added or changed.
pub(crate) fn set_rows(
    alloc: Global,
    solver: &mut SolverModel,
    map: &mut AddressMap,
    leaves: &[Item],
) -> Result<u64, Memory>
    requires forms { All (λ leaf. HasNativeForm leaf.body) leaves.now }
    requires indexed { All (HasIndices map.old.vars.indices) leaves.now }
    requires named { NamesEach map.old solver.old.leaves }
    requires apart { HaveDistinctKeys (flat_map leaf_rows leaves.now) }
    ensures set { IfOk result (λ n. SetsRows map.old solver.old.leaves
        (flat_map leaf_rows leaves.now) n map.new solver.new.leaves) }
{
    let mut changed: u64 = 0;
    for leaf in leaves {
        changed += u64::from(set_if_row(alloc, solver, map, leaf)?);
    }
    Ok(changed)
}

// Sets a leaf if it is a row.
fn set_if_row(
    alloc: Global,
    solver: &mut SolverModel,
    map: &mut AddressMap,
    leaf: &Item,
) -> Result<u8, Memory>
    requires form { HasNativeForm leaf.now.body }
    requires indexed { HasIndices map.old.vars.indices leaf.now }
    requires named { NamesEach map.old solver.old.leaves }
    ensures set { IfOk result (λ n. SetsRows map.old solver.old.leaves
        (leaf_rows leaf.now) n map.new solver.new.leaves) }
    ensures few { IfOk result (λ n. n ≤ 1) }
{
    if is_no_row(leaf) {
        return Ok(0);
    }
    let changed = set_row(alloc, solver, map, leaf)?;
    Ok(changed)
}

// Whether a leaf is no row.
pub(crate) fn is_no_row(leaf: &Item) -> bool
    ensures { MatchBool result (leaf_rows leaf.now ≡ [])
        (leaf_rows leaf.now ≡ (leaf.now.at, leaf.now.body) ∷ []) }
{
    matches!(
        &leaf.body,
        Body::Group { .. } | Body::Free { .. } | Body::PlainObj { .. } | Body::AffineObj { .. }
    )
}

// Removes leaf rows.
pub(crate) fn drop_rows(solver: &mut SolverModel, map: &mut AddressMap, gone: &[Address])
    requires named { NamesEach map.old solver.old.leaves }
    requires there { All (λ at. IsSome (finite.get map.old.rows.indices at)) gone.now }
    requires apart { AllPairs (λ a b. ¬ (b ≡ a)) gone.now }
    ensures dropped { DropsRows map.old solver.old.leaves gone.now (length gone.now)
        map.new solver.new.leaves }
{
    for at in gone {
        drop_row(solver, map, at);
    }
}

// Whether the row of an index is this one.
fn is_same(solver: &SolverModel, map: &AddressMap, at: &Address, i: usize, row: &LeafRow) -> bool
    requires named { NamesEach map.now solver.now.leaves }
    requires here { finite.get map.now.rows.indices at.now ≡ Some i }
    requires names { RowNames map.now.vars.indices row.now }
    ensures { IsTrue result ↔ (finite.get (rows_in map.now solver.now.leaves) at.now
        ≡ Some (read_row map.now.vars.indices row.now)) }
{
    // what this ensures of the map
    let _one_to_one = map.var_at(0);
    match solver.row(i) {
        Some(held) => same_row(held, row),
        None => unreachable!(),
    }
}
