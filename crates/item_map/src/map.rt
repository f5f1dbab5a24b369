//! Finite maps from addresses, kept item by item.
ghost use Rattle.std.specs.Prelude.{◌≡◌, ◌+◌, ◌<◌, ◌≤◌, None, IfErr, IfOk, IsOk, IsSome, OnErr, OnOk, filter, find, length};
ghost use Rattle.std.specs.FinMap as finite;
ghost use Rattle.std.specs.Option.{option_copied};
ghost use Rattle.item_map.specs.ItemAddresses.{is_of};

use crate::entries::{EntriesLeft, ItemsLeft};
use crate::items::RankedItems;
use crate::ordered::{Ordered, Room};
use crate::roots::ByRoot;
use aff_core::Address;
use lists::Memory;
use std::alloc::Global;
use std::marker::Model;

/// A finite map from addresses, in which an item of the model is found by its number, whatever else
/// there is: then a look-up, a change, and all entries at or below the item's address take a walk of
/// these entries alone.
///
/// An item that was emptied keeps its place, so that entries put there again move nothing. Places
/// are given up where most are empty and an item of a new number comes, so they cost no more than
/// the items that came.
///
/// Contracts see the entries, and beside them how many can still be inserted without memory but
/// their own room.
#[derive(Debug, Drop)]
pub struct ItemMap<V> {
    alloc: Global,
    roots: ByRoot<V>,
    // the entries of an item that isn't there
    nothing: Ordered<V>,
    len: usize,
    // for each root there are places for as many items more
    spare: usize,
}

impl<V> Model for ItemMap<V> {
    ghost use Rattle.item_map.specs.ItemLists.{IsKept, map_in};
    ghost use Rattle.item_map.specs.ItemMap.{ItemMap, item_map_code};

    ghost Value = { ItemMap V };

    ghost coded = { item_map_code V.code };

    ghost view = { λ a. record { entries = map_in a.roots; spare = a.spare } };

    ghost invariant = { λ a. IsKept a.roots a.nothing a.len a.spare };
}

impl<V> ItemMap<V> {
    /// No addresses, which takes no memory.
    pub fn new(alloc: Global) -> ItemMap<V>
        ensures { result.entries ≡ finite.empty }
    {
        ItemMap {
            alloc,
            roots: ByRoot::new(alloc),
            nothing: Ordered::new(),
            len: 0,
            spare: 0,
        }
    }

    /// How many addresses there are.
    pub fn len(&self) -> usize
        ensures { result ≡ length (finite.keys self.now.entries) }
    {
        self.len
    }

    /// The value at an address, and `None` where it isn't there.
    pub fn get(&self, at: &Address) -> Option<&V>
        ensures { option_copied result ≡ finite.get self.now.entries at.now }
    {
        match self.roots.own(at) {
            Some(entries) => entries.get(at),
            None => None,
        }
    }

    /// The addresses in their order, each with its value.
    pub fn iter(&self) -> EntriesLeft<'_, V>
        ensures { result ≡ finite.entries self.now.entries }
    {
        let left = ItemsLeft {
            variables: self.roots.variables.items.iter(),
            groups: self.roots.groups.items.iter(),
            rows: self.roots.rows.items.iter(),
            objectives: self.roots.objectives.items.iter(),
        };
        EntriesLeft::of(self.nothing.iter(), left)
    }

    /// The addresses at and below that of an item of the model, in their order, each with its value.
    pub fn of_item(&self, item: &Address) -> RankedItems<'_, (Address, V)>
        ensures { result ≡ filter (λ e. is_of item.now e.0) (finite.entries self.now.entries) }
    {
        if item.depth() > 0 {
            return self.nothing.iter();
        }
        match self.roots.own(item) {
            Some(entries) => entries.iter(),
            None => self.nothing.iter(),
        }
    }

    /// The first address at or below that of an item of the model, and `None` where there is none.
    pub fn first_of(&self, item: &Address) -> Option<Address>
        ensures { result ≡ find (is_of item.now) (finite.keys self.now.entries) }
    {
        match self.of_item(item).next() {
            Some(entry) => Some(entry.0),
            None => None,
        }
    }
}

impl<V: Drop> ItemMap<V> {
    /// Puts a value at an address, and answers the one before. Where memory runs out it hands the
    /// value back, and nothing is changed.
    pub fn put(&mut self, at: Address, value: V) -> Result<Option<V>, (V, Memory)>
        ensures before { IfOk result (λ before. before ≡ finite.get self.old.entries at) }
        ensures ok { OnOk result (self.new.entries ≡ finite.insert self.old.entries at value) }
        ensures err { OnErr result (self.new.entries ≡ self.old.entries) }
        ensures handed_back { IfErr result (λ e. e.0 ≡ value) }
    {
        match self.get(&at) {
            Some(_there) => Ok(Some(self.replace(&at, value))),
            None => match self.put_new(at, value) {
                Ok(()) => Ok(None),
                Err(refused) => Err(refused),
            },
        }
    }

    /// Puts a value at an address that isn't there. Where memory runs out it hands the value back,
    /// and nothing is changed.
    pub fn put_new(&mut self, at: Address, value: V) -> Result<(), (V, Memory)>
        requires free { finite.get self.old.entries at ≡ None }
        ensures ok { OnOk result (self.new.entries ≡ finite.insert self.old.entries at value) }
        ensures err { OnErr result (self.new.entries ≡ self.old.entries) }
        ensures handed_back { IfErr result (λ e. e.0 ≡ value) }
    {
        if let Err(memory) = self.reserve(1) {
            return Err((value, memory));
        }
        let room = match Ordered::room(self.alloc, at, value) {
            Ok(room) => room,
            Err(refused) => return Err(refused),
        };
        self.insert(room);
        Ok(())
    }

    /// Makes places for items, so that as many addresses can be inserted without memory but their
    /// own room.
    pub fn reserve(&mut self, more: usize) -> Result<(), Memory>
        ensures ok { OnOk result (more ≤ self.new.spare) }
        ensures succeeds { more ≤ self.old.spare → IsOk result }
        ensures same { self.new.entries ≡ self.old.entries }
        ensures spare { self.old.spare ≤ self.new.spare }
    {
        if more <= self.spare {
            return Ok(());
        }
        if usize::MAX - self.len < more {
            return Err(Memory);
        }
        self.roots.reserve(more)?;
        self.spare = more;
        Ok(())
    }

    /// Puts an address in that isn't there, with its value, in the room that they are in.
    pub fn insert(&mut self, room: Room<V>)
        requires free { finite.get self.old.entries room.value.item.0 ≡ None }
        requires spare { 0 < self.old.spare }
        ensures put { self.new.entries
            ≡ finite.insert self.old.entries room.value.item.0 room.value.item.1 }
        ensures spare { self.old.spare ≤ self.new.spare + 1 }
    {
        let at = room.item.0;
        let mut entries = self.roots.take(&at);
        entries.insert(room);
        self.roots.put(&at, entries);
        self.len += 1;
        self.spare -= 1;
    }

    /// Puts a value in the place of the one at its address, and answers that.
    pub fn replace(&mut self, at: &Address, value: V) -> V
        requires { IsSome (finite.get self.old.entries at.now) }
        ensures before { Some result ≡ finite.get self.old.entries at.now }
        ensures after { self.new.entries ≡ finite.insert self.old.entries at.now value }
        ensures spare { self.new.spare ≡ self.old.spare }
    {
        let mut entries = self.roots.take(at);
        let before = entries.replace(at, value);
        self.roots.put(at, entries);
        before
    }

    /// Takes an address out, and answers its value, or `None` where it wasn't there.
    pub fn remove(&mut self, at: &Address) -> Option<V>
        ensures value { result ≡ finite.get self.old.entries at.now }
        ensures removed { self.new.entries ≡ finite.remove self.old.entries at.now }
        ensures spare { self.new.spare ≡ self.old.spare }
    {
        let Some(_there) = self.get(at) else {
            return None;
        };
        let mut entries = self.roots.take(at);
        let value = entries.remove(at);
        self.roots.put(at, entries);
        self.len -= 1;
        value
    }

    /// Takes all out. Places that were reserved stay.
    pub fn clear(&mut self)
        ensures emptied { self.new.entries ≡ finite.empty }
        ensures spare { self.new.spare ≡ self.old.spare }
    {
        self.len = 0;
        if self.spare == 0 {
            self.roots = ByRoot::new(self.alloc);
            return;
        }
        self.roots.clear();
    }
}
