//! A one-to-one map between addresses and indices.
ghost use Rattle.std.specs.Prelude.{◌≡◌, ◌+◌, ◌<◌, ◌≤◌, None, IsOk, OnOk, OnErr, filter, length};
ghost use Rattle.std.specs.FinMap as finite;
ghost use Rattle.item_map.specs.ItemAddresses.{is_of};
ghost use Rattle.address_map.specs.Places.{AreIndicesOneToOne, IsAddressAt, IsIndexFree, addresses};

use crate::reserved::Reserved;
use aff_core::Address;
use indexmap::IndexMap;
use item_map::{EntriesLeft, RankedItems};
use lists::Memory;
use std::alloc::Global;
use std::marker::Model;

/// Addresses with their indices, where no two addresses have one index.
#[derive(Debug, Drop)]
pub struct Places {
    ordered: Reserved,
    by_index: IndexMap<usize, Address>,
}

impl Model for Places {
    ghost use Rattle.address_map.specs.Places.{Places, places_code};

    ghost Value = { Places };

    ghost coded = { places_code };

    ghost use Rattle.address_map.specs.KeptPlaces.{IsOrderedKept, places_in};

    ghost view = { places_in };

    ghost invariant = { IsOrderedKept };
}

impl Places {
    pub fn new(alloc: Global) -> Places
        ensures { result.indices ≡ finite.empty }
    {
        Places {
            ordered: Reserved::new(alloc),
            by_index: IndexMap::new(alloc),
        }
    }

    pub fn reserve(&mut self, extra: usize) -> Result<(), Memory>
        ensures ok { OnOk result (extra ≤ self.new.spare) }
        ensures same { self.new.indices ≡ self.old.indices }
        ensures spare { self.old.spare ≤ self.new.spare }
    {
        self.ordered.reserve(extra)?;
        self.by_index.reserve(extra)?;
        Ok(())
    }

    /// Puts an address in with its index, neither of which may be there.
    pub fn put(&mut self, at: Address, i: usize) -> Result<(), Memory>
        requires address_free { finite.get self.old.indices at ≡ None }
        requires index_free { IsIndexFree self.old.indices i }
        ensures ok { OnOk result (self.new.indices ≡ finite.insert self.old.indices at i) }
        ensures err { OnErr result (self.new.indices ≡ self.old.indices) }
        ensures succeeds { 0 < self.old.spare → IsOk result }
        ensures spare { self.old.spare ≤ self.new.spare + 1 }
        ensures one_to_one { AreIndicesOneToOne self.new.indices }
    {
        self.ordered.reserve(1)?;
        self.by_index.insert(i, at)?;
        self.ordered.insert(at, i);
        Ok(())
    }

    /// Takes an address out, and answers its index.
    pub fn remove(&mut self, at: &Address) -> Option<usize>
        ensures index { result ≡ finite.get self.old.indices at.now }
        ensures removed { self.new.indices ≡ finite.remove self.old.indices at.now }
        ensures spare { self.old.spare ≤ self.new.spare }
        ensures one_to_one { AreIndicesOneToOne self.new.indices }
    {
        let i = self.ordered.remove(at)?;
        self.by_index.swap_remove(&i);
        Some(i)
    }

    /// Takes all out, and keeps the room.
    pub fn clear(&mut self)
        ensures emptied { self.new.indices ≡ finite.empty }
        ensures spare { self.old.spare ≤ self.new.spare }
    {
        self.ordered.clear();
        self.by_index.clear();
    }

    pub fn index(&self, at: &Address) -> Option<usize>
        ensures value { result ≡ finite.get self.now.indices at.now }
        ensures one_to_one { AreIndicesOneToOne self.now.indices }
    {
        self.ordered.get(at)
    }

    pub fn address(&self, i: usize) -> Option<Address>
        ensures value { IsAddressAt self.now.indices i result }
        ensures one_to_one { AreIndicesOneToOne self.now.indices }
    {
        self.by_index.get(&i).copied()
    }

    pub fn len(&self) -> usize
        ensures { result ≡ length (addresses self.now.indices) }
    {
        self.ordered.len()
    }

    /// The addresses in their order, each with its index.
    pub fn iter(&self) -> EntriesLeft<'_, usize>
        ensures { result ≡ finite.entries self.now.indices }
    {
        self.ordered.iter()
    }

    /// The addresses at and below that of an item of the model, each with its index.
    pub fn of_item(&self, item: &Address) -> RankedItems<'_, (Address, usize)>
        ensures { result ≡ filter (λ e. is_of item.now e.0) (finite.entries self.now.indices) }
    {
        self.ordered.of_item(item)
    }
}
