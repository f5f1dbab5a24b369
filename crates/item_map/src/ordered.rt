//! Finite maps from addresses, in the order of the addresses.
ghost use Rattle.std.specs.Prelude.{◌≡◌, ◌+◌, ◌^◌, ◌<◌, ◌≤◌, None, IfErr, IfOk, IsSome, MatchResult, length};
ghost use Rattle.std.specs.FinMap as finite;
ghost use Rattle.std.specs.Option.{option_copied, option_map};
ghost use Rattle.item_map.specs.Gaps.{IsGapFor, IsPlaceOf};

use crate::items::RankedItems;
use crate::ranked::{Fork, Ranked};
use aff_core::Address;
use lists::Memory;
use std::alloc::Global;
use std::marker::Model;
use std::mem;

/// A finite map from addresses, kept as one tree.
#[derive(Debug, Drop)]
pub struct Ordered<V> {
    entries: Ranked<(Address, V)>,
}

/// An address with its value, in room of its own.
pub type Room<V> = Box<Fork<(Address, V)>>;

impl<V> Model for Ordered<V> {
    ghost use Rattle.std.specs.FinMap as finite;
    ghost use Rattle.aff_core.specs.Address.{address_cmp, address_code};
    ghost use Rattle.aff_core.specs.Rising.{RiseStrictly};

    ghost Value = { finite.FinMap address_cmp V };

    ghost coded = { finite.code address_code V.code };

    ghost view = { λ a. finite.from_sorted a.entries };

    ghost invariant = { λ a. RiseStrictly a.entries };
}

impl<V> Ordered<V> {
    /// No addresses, which takes no memory.
    pub fn new() -> Ordered<V>
        ensures { result ≡ finite.empty }
    {
        Ordered {
            entries: Ranked::new(),
        }
    }

    /// How many addresses there are.
    pub fn len(&self) -> usize
        ensures { result ≡ length (finite.keys self.now) }
    {
        self.entries.len()
    }

    /// The value at an address, and `None` where it isn't there.
    pub fn get(&self, at: &Address) -> Option<&V>
        ensures { option_copied result ≡ finite.get self.now at.now }
    {
        self.entries.find(at)
    }

    /// The addresses in their order, each with its value.
    pub fn iter(&self) -> RankedItems<'_, (Address, V)>
        ensures { result ≡ finite.entries self.now }
    {
        RankedItems::starting_at(&self.entries, 0)
    }
}

impl<V: Drop> Ordered<V> {
    /// Room for an address with its value, or the value handed back.
    pub fn room(alloc: Global, at: Address, value: V) -> Result<Room<V>, (V, Memory)>
        ensures made { IfOk result (λ room. room.value.item ≡ (at, value)) }
        ensures handed_back { IfErr result (λ e. e.0 ≡ value) }
    {
        match Fork::room(alloc, (at, value)) {
            Ok(room) => Ok(room),
            Err((entry, memory)) => Err((entry.1, memory)),
        }
    }

    /// The room with another address and value in it.
    pub fn filled(mut room: Room<V>, at: Address, value: V) -> Room<V>
        ensures { result.value.item ≡ (at, value) }
    {
        room.item = (at, value);
        room
    }

    /// Puts an address in with its value, in the room that they are in.
    pub fn insert(&mut self, room: Room<V>)
        requires free { finite.get self.old room.value.item.0 ≡ None }
        requires fits { length (finite.keys self.old) + 1 < 2 ^ 64 }
        ensures { self.new ≡ finite.insert self.old room.value.item.0 room.value.item.1 }
    {
        let Err(n) = self.place(&room.item.0) else {
            unreachable!()
        };
        self.entries.insert(n, room);
    }

    /// Puts a value in the place of the one at its address, and answers that.
    pub fn replace(&mut self, at: &Address, value: V) -> V
        requires { IsSome (finite.get self.old at.now) }
        ensures before { Some result ≡ finite.get self.old at.now }
        ensures after { self.new ≡ finite.insert self.old at.now value }
    {
        let _len = self.len();
        let Some(mut room) = self.take(at) else {
            unreachable!()
        };
        let before = mem::replace(&mut room.item, (*at, value));
        self.insert(room);
        before.1
    }

    /// Takes an address out, and answers its value, or `None` where it wasn't there.
    pub fn remove(&mut self, at: &Address) -> Option<V>
        ensures value { result ≡ finite.get self.old at.now }
        ensures removed { self.new ≡ finite.remove self.old at.now }
    {
        match self.take(at) {
            Some(room) => Some(Box::into_inner(room).item.1),
            None => None,
        }
    }

    // Takes an address out with its value, in their room.
    fn take(&mut self, at: &Address) -> Option<Room<V>>
        ensures value { option_map (λ room. room.value.item.1) result ≡ finite.get self.old at.now }
        ensures taken { self.new ≡ finite.remove self.old at.now }
    {
        match self.place(at) {
            Ok(n) => self.entries.take(n),
            Err(_) => None,
        }
    }

    // Where the address is, or where it would be.
    fn place(&self, at: &Address) -> Result<usize, usize>
        ensures { MatchResult result (IsPlaceOf self.now at.now) (IsGapFor self.now at.now) }
    {
        self.entries.place(at)
    }
}
