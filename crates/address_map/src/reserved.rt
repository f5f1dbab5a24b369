//! Addresses in their order, each with an index, and rooms for more.
ghost use Rattle.std.specs.Prelude.{◌≡◌, ◌+◌, ◌<◌, ◌≤◌, None, IsOk, OnOk, filter, length, vec_len};
ghost use Rattle.std.specs.FinMap as finite;
ghost use Rattle.item_map.specs.ItemAddresses.{is_of};
ghost use Rattle.address_map.specs.Places.{addresses};

use aff_core::{Address, Root};
use item_map::{EntriesLeft, ItemMap, Ordered, RankedItems, Room};
use lists::Memory;
use std::alloc::Global;
use std::marker::Model;

/// A finite map from addresses to indices, with rooms for addresses that are put later.
#[derive(Debug, Drop)]
pub struct Reserved {
    alloc: Global,
    ordered: ItemMap<usize>,
    rooms: Vec<Room<usize>>,
}

impl Model for Reserved {
    ghost use Rattle.address_map.specs.Places.{Places, places_code};

    ghost Value = { Places };

    ghost coded = { places_code };

    ghost use Rattle.address_map.specs.KeptPlaces.{reserved_in};

    ghost view = { reserved_in };
}

impl Reserved {
    pub fn new(alloc: Global) -> Reserved
        ensures { result.indices ≡ finite.empty }
    {
        Reserved {
            alloc,
            ordered: ItemMap::new(alloc),
            rooms: Vec::new(alloc),
        }
    }

    pub fn reserve(&mut self, extra: usize) -> Result<(), Memory>
        ensures ok { OnOk result (extra ≤ self.new.spare) }
        ensures succeeds { extra ≤ self.old.spare → IsOk result }
        ensures same { self.new.indices ≡ self.old.indices }
        ensures spare { self.old.spare ≤ self.new.spare }
    {
        self.ordered.reserve(extra)?;
        make_rooms(self.alloc, &mut self.rooms, extra)
    }

    /// Puts an address in with its index, where there is room.
    pub fn insert(&mut self, at: Address, i: usize)
        requires free { finite.get self.old.indices at ≡ None }
        requires room { 0 < self.old.spare }
        ensures put { self.new.indices ≡ finite.insert self.old.indices at i }
        ensures spare { self.old.spare ≤ self.new.spare + 1 }
    {
        let Some(room) = self.rooms.pop() else {
            unreachable!()
        };
        self.ordered.insert(Ordered::filled(room, at, i));
    }

    /// Takes an address out, and answers its index.
    pub fn remove(&mut self, at: &Address) -> Option<usize>
        ensures index { result ≡ finite.get self.old.indices at.now }
        ensures removed { self.new.indices ≡ finite.remove self.old.indices at.now }
        ensures spare { self.old.spare ≤ self.new.spare }
    {
        self.ordered.remove(at)
    }

    /// Takes all out, and keeps the rooms.
    pub fn clear(&mut self)
        ensures emptied { self.new.indices ≡ finite.empty }
        ensures spare { self.old.spare ≤ self.new.spare }
    {
        self.ordered.clear();
    }

    pub fn get(&self, at: &Address) -> Option<usize>
        ensures { result ≡ finite.get self.now.indices at.now }
    {
        self.ordered.get(at).copied()
    }

    pub fn len(&self) -> usize
        ensures { result ≡ length (addresses self.now.indices) }
    {
        self.ordered.len()
    }

    /// The addresses in their order, each with its index.
    pub fn iter(&self) -> EntriesLeft<'_, usize>
        ensures { result ≡ finite.entries self.now.indices }
    {
        self.ordered.iter()
    }

    /// The addresses at and below that of an item of the model, each with its index.
    pub fn of_item(&self, item: &Address) -> RankedItems<'_, (Address, usize)>
        ensures { result ≡ filter (λ e. is_of item.now e.0) (finite.entries self.now.indices) }
    {
        self.ordered.of_item(item)
    }
}

// Makes rooms until there are enough.
fn make_rooms(alloc: Global, rooms: &mut Vec<Room<usize>>, count: usize) -> Result<(), Memory>
    ensures ok { OnOk result (count ≤ vec_len rooms.new) }
    ensures succeeds { count ≤ vec_len rooms.old → IsOk result }
    ensures kept { vec_len rooms.old ≤ vec_len rooms.new }
{
    while rooms.len() < count {
        match Ordered::room(alloc, Address::root(Root::Objective, 0), 0) {
            Ok(room) => rooms.push(room)?,
            Err(refused) => return Err(refused.1),
        }
    }
    Ok(())
}
