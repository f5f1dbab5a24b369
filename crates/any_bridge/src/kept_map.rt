//! Items with their edges, by address.
ghost use Rattle.std.specs.Prelude.{◌≡◌, None, IfErr, IfSome, IsSomeAnd, OnErr, OnOk, find};
ghost use Rattle.std.specs.Option.{option_copied};
ghost use Rattle.std.specs.FinMap as finite;
ghost use Rattle.item_map.specs.ItemAddresses.{is_of};
ghost use Rattle.bridge_face.specs.BridgeState.{kept_item};
ghost use Rattle.bridge_face.specs.Law.{IsItemFor};

use crate::suited_item::SuitedItem;
use aff_core::Address;
use bridge_face::KeptItem;
use item_core::{Edge, Item};
use item_map::ItemMap;
use lists::Memory;
use std::alloc::Global;
use std::marker::Model;

/// Items with their edges, each of which leads from its item, by address.
#[derive(Drop)]
pub(crate) struct KeptMap {
    items: ItemMap<SuitedItem>,
}

impl Model for KeptMap {
    ghost use Rattle.bridge_face.specs.BridgeState.{KeptByAddress, kept_code};

    ghost Value = { KeptByAddress };

    ghost coded = { kept_code };

    ghost view = { λ a. a.items.entries };
}

impl KeptMap {
    pub(crate) fn new(alloc: Global) -> KeptMap
        ensures { result ≡ finite.empty }
    {
        KeptMap {
            items: ItemMap::new(alloc),
        }
    }

    pub(crate) fn get(&self, at: &Address) -> Option<&KeptItem>
        ensures value { option_copied result ≡ finite.get self.now at.now }
        ensures suits { IfSome result (λ kept. IsItemFor kept.now.edge kept.now.item) }
    {
        match self.items.get(at) {
            Some(kept) => Some(kept.kept()),
            None => None,
        }
    }

    // The first address at or below that of an item of the model at which something is kept.
    pub(crate) fn first_of(&self, at: &Address) -> Option<Address>
        ensures { result ≡ find (is_of at.now) (finite.keys self.now) }
    {
        self.items.first_of(at)
    }

    // Puts an item at its address, or hands it back.
    pub(crate) fn put(&mut self, edge: Edge, item: Item) -> Result<(), (Item, Memory)>
        requires free { finite.get self.old item.at ≡ None }
        requires suits { IsItemFor edge item }
        ensures ok { OnOk result (self.new
            ≡ finite.insert self.old item.at (record { edge = edge; item = item })) }
        ensures err { OnErr result (self.new ≡ self.old) }
        ensures handed_back { IfErr result (λ e. e.0 ≡ item) }
    {
        match self.items.put_new(item.at, SuitedItem::new(edge, item)) {
            Ok(()) => Ok(()),
            Err((kept, memory)) => Err((kept.into_kept().item, memory)),
        }
    }

    // Puts an item in the place of the one at its address.
    pub(crate) fn replace(&mut self, item: Item) -> Item
        requires { IsSomeAnd (finite.get self.old item.at) (λ kept. IsItemFor kept.edge item) }
        ensures old { IfSome (finite.get self.old item.at) (λ kept. result ≡ kept.item) }
        ensures new { IfSome (finite.get self.old item.at)
            (λ kept. self.new ≡ finite.insert self.old item.at (kept_item item kept)) }
    {
        let at = item.at;
        let Some(kept) = self.get(&at) else {
            unreachable!()
        };
        let edge = kept.edge;
        self.items
            .replace(&at, SuitedItem::new(edge, item))
            .into_kept()
            .item
    }

    pub(crate) fn take(&mut self, at: &Address) -> Option<KeptItem>
        ensures item { result ≡ finite.get self.old at.now }
        ensures gone { self.new ≡ finite.remove self.old at.now }
    {
        let kept = self.items.remove(at)?;
        Some(kept.into_kept())
    }
}
