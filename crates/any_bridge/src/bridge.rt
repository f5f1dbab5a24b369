//! A bridge of any family.
ghost use Rattle.std.specs.Prelude.{◌≡◌};
ghost use Rattle.bridge_face.specs.BridgeState.{one_more};
ghost use Rattle.any_bridge.specs.States.{fresh, state_of_any};

use crate::families;
use crate::kept_map::KeptMap;
use aff_core::Address;
use bridge_face::{Bridge, ChildRows};
use item_core::{Edge, Family, Image, Item};
use lists::Memory;
use ratio_core::{NumberFault, Ratios};
use std::alloc::Global;
use std::marker::Model;

/// A bridge: its family, the items that it keeps, and its turns.
///
/// The family is a value and no type parameter, so that one list has bridges of all families, and
/// what keeps and frees their items is written and proved once.
#[derive(Drop)]
pub struct AnyBridge {
    alloc: Global,
    family: Family,
    kept: KeptMap,
    turns: u64,
}

impl Model for AnyBridge {
    ghost use Rattle.bridge_face.specs.BridgeState.{BridgeState};
    ghost use Rattle.bridge_set.specs.Bridges.{state_code};

    ghost Value = { BridgeState };

    ghost coded = { state_code };

    ghost view = { λ a. record { family = a.family; kept = a.kept; turns = a.turns } };
}

impl AnyBridge {
    /// A bridge of the family, which keeps nothing.
    pub fn new(alloc: Global, family: Family) -> AnyBridge
        ensures { state_of_any result ≡ fresh family }
    {
        AnyBridge {
            alloc,
            family,
            kept: KeptMap::new(alloc),
            turns: 0,
        }
    }
}

// One turn more.
fn turned(turns: u64) -> u64
    ensures { result ≡ one_more turns }
{
    turns.saturating_add(1)
}

impl Bridge for AnyBridge {
    ghost state = { state_of_any };

    fn family(&self) -> Family {
        self.family
    }

    fn turns(&self) -> u64 {
        self.turns
    }

    fn image(&mut self, edge: Edge, item: &Item) -> Result<Image, NumberFault> {
        self.turns = turned(self.turns);
        families::image(self.alloc, edge, item)
    }

    fn keep(&mut self, edge: Edge, item: Item) -> Result<(), (Item, Memory)> {
        self.turns = turned(self.turns);
        self.kept.put(edge, item)
    }

    fn alter(&mut self, item: Item) -> Item {
        self.turns = turned(self.turns);
        self.kept.replace(item)
    }

    fn let_go(&mut self, at: &Address) -> Option<Item> {
        self.turns = turned(self.turns);
        let kept = self.kept.take(at)?;
        Some(kept.item)
    }

    fn let_all_go(&mut self) {
        self.turns = turned(self.turns);
        self.kept = KeptMap::new(self.alloc);
    }

    fn first_of(&self, at: &Address) -> Option<Address> {
        self.kept.first_of(at)
    }

    fn child_rows(&self, at: &Address) -> Option<ChildRows> {
        let Some(kept) = self.kept.get(at) else {
            return None;
        };
        Some(families::child_rows(kept))
    }

    fn back(&self, at: &Address, duals: &[Ratios]) -> Result<Ratios, NumberFault> {
        let Some(kept) = self.kept.get(at) else {
            unreachable!()
        };
        families::back(self.alloc, kept, duals)
    }
}
