//! Which items mention which variables.
ghost use Rattle.std.specs.Prelude.{◌≡◌, None, IsSome, OnErr, OnOk, false, is_some};
ghost use Rattle.std.specs.FinMap as finite;
ghost use Rattle.std.specs.Option.{option_copied};
ghost use Rattle.address_map.specs.Noted.{IsNotedAt, noted_in, with_item, without_item};

use aff_core::Address;
use item_map::{ItemMap, Ordered, Room};
use lists::Memory;
use std::alloc::Global;
use std::marker::Model;

/// Addresses in their order.
pub type AddressSet = Ordered<()>;

/// Pairs of a variable and an item that mentions it.
#[derive(Debug, Drop)]
pub struct Notes {
    alloc: Global,
    items: ItemMap<AddressSet>,
}

impl Model for Notes {
    ghost use Rattle.address_map.specs.Noted.{Noted, noted_code};

    ghost Value = { Noted };

    ghost coded = { noted_code };

    ghost view = { λ a. a.items.entries };
}

impl Notes {
    pub fn new(alloc: Global) -> Notes
        ensures { result ≡ finite.empty }
    {
        Notes {
            alloc,
            items: ItemMap::new(alloc),
        }
    }

    /// Notes that an item mentions a variable, which isn't noted yet.
    pub fn note(&mut self, var: Address, item: Address) -> Result<(), Memory>
        requires { finite.get (noted_in self.old var) item ≡ None }
        ensures ok { OnOk result
            (IsNotedAt self.old self.new var (with_item (noted_in self.old var) item)) }
        ensures err { OnErr result (self.new ≡ self.old) }
    {
        let room = match Ordered::room(self.alloc, item, ()) {
            Ok(room) => room,
            Err(refused) => return Err(refused.1),
        };
        match self.items.get(&var) {
            None => self.note_first(var, room),
            Some(items) => {
                if items.len() == usize::MAX {
                    return Err(Memory);
                }
                let mut items = self.take_items(&var);
                items.insert(room);
                self.put_items(&var, items);
                Ok(())
            }
        }
    }

    // Notes an item that mentions a variable, as the first.
    fn note_first(&mut self, var: Address, room: Room<()>) -> Result<(), Memory>
        requires { finite.get self.old var ≡ None }
        ensures ok { OnOk result (IsNotedAt self.old self.new var
            (with_item (noted_in self.old var) room.value.item.0)) }
        ensures err { OnErr result (self.new ≡ self.old) }
    {
        let mut items = Ordered::new();
        items.insert(room);
        match self.items.put_new(var, items) {
            Ok(()) => Ok(()),
            Err(refused) => Err(refused.1),
        }
    }

    /// Takes a pair away; false exactly where it wasn't there.
    pub fn unnote(&mut self, var: &Address, item: &Address) -> bool
        ensures there { result ≡ is_some (finite.get (noted_in self.old var.now) item.now) }
        ensures taken { IsNotedAt self.old self.new var.now
            (without_item (noted_in self.old var.now) item.now) }
    {
        let Some(_items) = self.items.get(var) else {
            return false;
        };
        let mut items = self.take_items(var);
        let was_there = items.remove(item).is_some();
        self.put_items(var, items);
        was_there
    }

    // Takes the items out that mention a variable of some, which stays.
    fn take_items(&mut self, var: &Address) -> AddressSet
        requires there { IsSome (finite.get self.old var.now) }
        ensures items { result ≡ noted_in self.old var.now }
        ensures taken { IsNotedAt self.old self.new var.now finite.empty }
        ensures there { IsSome (finite.get self.new var.now) }
    {
        self.items.replace(var, Ordered::new())
    }

    // Puts these in the place of the items that mention a variable.
    fn put_items(&mut self, var: &Address, items: AddressSet)
        requires there { IsSome (finite.get self.old var.now) }
        ensures { IsNotedAt self.old self.new var.now items }
    {
        if items.len() == 0 {
            drop(self.items.remove(var));
            return;
        }
        drop(self.items.replace(var, items));
    }

    /// The items that mention a variable, and `None` where there is none.
    pub fn noted(&self, var: &Address) -> Option<&AddressSet>
        ensures { option_copied result ≡ finite.get self.now var.now }
    {
        self.items.get(var)
    }

    /// Whether a pair is noted.
    pub fn is_noted(&self, var: &Address, item: &Address) -> bool
        ensures there { result ≡ is_some (finite.get (noted_in self.now var.now) item.now) }
        ensures free { result ≡ false → finite.get (noted_in self.now var.now) item.now ≡ None }
    {
        match self.items.get(var) {
            Some(items) => items.get(item).is_some(),
            None => false,
        }
    }

    pub fn clear(&mut self)
        ensures { self.new ≡ finite.empty }
    {
        self.items.clear();
    }
}
