//! The duals of rows, by those of the leaf rows below them.
ghost use Rattle.std.specs.Prelude.{◌≡◌, ◌<◌, ◌≤◌, All, IfOk, IsNone, MatchOption, Some, map};
ghost use Rattle.std.specs.Option.{option_map};
ghost use Rattle.ratio_core.specs.Answers.{ExactWhere};
ghost use Rattle.bridge_face.specs.BridgeState.{child_rows_of, found};
ghost use Rattle.adjoint_core.specs.Read.{duals_by};
ghost use Rattle.adjoint_core.specs.Told.{TellsCarried, TellsCarriedAt};
ghost use Rattle.adjoint_core.specs.Walk.{AreRowsWithin, DualBelowFits, IsRowWithin, IsUnfitAmong, RowDualFits, dual_at, kept_at, levels, row_dual, row_place};

use crate::BackFault;
use address_map::AddressMap;
use aff_core::{Address, Root};
use bridge_face::{Bridge, ChildRows};
use item_core::KIND_COUNT;
use lists::{Memory, Sequence};
use ratio_core::{NumberFault, Ratio, Ratios};
use solver_store::LeafDuals;
use std::alloc::Global;
use user_model::{Row, Rows};

// A row has fewer levels below it than there are kinds.
const LEVELS: u8 = KIND_COUNT as u8 + 1;

/// The duals of the user's rows, in their order.
pub(crate) fn row_duals<B: Bridge>(
    alloc: Global,
    bridges: &[B],
    places: &AddressMap,
    y: &LeafDuals,
    rows: &Rows,
) -> Result<Vec<Ratios>, BackFault>
    requires { AreRowsWithin (map B.state bridges.now) (duals_by places.now y.now) rows.now.items }
    ensures { let states = map B.state bridges.now in let leaf = duals_by places.now y.now in
        TellsCarried result (All (RowDualFits states leaf) rows.now.items)
        (λ duals. duals.items ≡ map (row_dual states leaf) rows.now.items)
        (IsUnfitAmong states leaf rows.now.items) }
{
    let mut duals = Vec::with_capacity(alloc, rows.len())?;
    for row in rows.iter() {
        duals.push(user_dual(alloc, bridges, places, y, row)?)?;
    }
    Ok(duals)
}

// The dual of one of the user's rows.
fn user_dual<B: Bridge>(
    alloc: Global,
    bridges: &[B],
    places: &AddressMap,
    y: &LeafDuals,
    row: &Row,
) -> Result<Ratios, BackFault>
    requires { IsRowWithin (map B.state bridges.now) (duals_by places.now y.now) levels
        (row_place row.now) }
    ensures { let states = map B.state bridges.now in let leaf = duals_by places.now y.now in
        TellsCarriedAt result (RowDualFits states leaf row.now)
        (λ dual. dual ≡ row_dual states leaf row.now) (row_place row.now) }
{
    let at = Address::root(Root::Row, row.id);
    match dual_below(alloc, bridges, places, y, &at, LEVELS) {
        Ok(dual) => Ok(dual),
        Err(fault) => Err(BackFault::of_number(&at, fault)),
    }
}

// The dual of the row at an address, by those of its child rows.
fn dual_below<B: Bridge>(
    alloc: Global,
    bridges: &[B],
    places: &AddressMap,
    y: &LeafDuals,
    at: &Address,
    levels: u8,
) -> Result<Ratios, NumberFault>
    requires { IsRowWithin (map B.state bridges.now) (duals_by places.now y.now) levels at.now }
    ensures { let states = map B.state bridges.now in let leaf = duals_by places.now y.now in
        ExactWhere result (DualBelowFits states leaf levels at.now)
        (λ dual. dual ≡ dual_at states leaf levels at.now) }
{
    let Some(keeper) = find_keeper(bridges, at) else {
        return Ok(leaf_dual(alloc, places, y, at)?);
    };
    let mut duals = Vec::with_capacity(alloc, keeper.rows.count as usize)?;
    for n in 0..keeper.rows.count {
        let child = at.child(keeper.rows.first + n);
        duals.push(dual_below(alloc, bridges, places, y, &child, levels - 1)?)?;
    }
    keeper.bridge.back(at, &duals)
}

// A bridge that keeps an item, and where the item's child rows stand.
#[derive(Drop)]
struct Keeper<'a, B: Bridge> {
    bridge: &'a B,
    rows: ChildRows,
}

// The bridge that keeps an item at an address.
fn find_keeper<'a, B: Bridge>(bridges: &'a [B], at: &Address) -> Option<Keeper<'a, B>>
    ensures { MatchOption result (IsNone (kept_at (map B.state bridges.now) at.now))
        (λ keeper. (kept_at (map B.state bridges.now) at.now
        ≡ found (B.state keeper.bridge.now) at.now)
        × (option_map (λ kept. child_rows_of kept.edge kept.item)
        (found (B.state keeper.bridge.now) at.now) ≡ Some keeper.rows)) }
{
    for bridge in bridges {
        if let Some(rows) = bridge.child_rows(at) {
            return Some(Keeper { bridge, rows });
        }
    }
    None
}

// The dual of a leaf row.
fn leaf_dual(
    alloc: Global,
    places: &AddressMap,
    y: &LeafDuals,
    at: &Address,
) -> Result<Ratios, Memory>
    ensures { IfOk result (λ dual. dual ≡ duals_by places.now y.now at.now) }
{
    let numbers = Vec::from_slice(alloc, leaf_numbers(places, y, at))?;
    Ok(Sequence::from_vec(numbers))
}

fn leaf_numbers<'a>(places: &AddressMap, y: &'a LeafDuals, at: &Address) -> &'a [Ratio]
    ensures { result.now ≡ duals_by places.now y.now at.now }
{
    let Some(i) = places.row_index(at) else {
        return &[];
    };
    match y.get(i) {
        Some(dual) => dual.as_slice(),
        None => &[],
    }
}
