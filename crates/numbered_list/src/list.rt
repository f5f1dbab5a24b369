//! Lists of items in the order of their numbers.
ghost use Rattle.std.specs.Prelude.{◌≡◌, ◌+◌, ◌^◌, ◌<◌, ◌≤◌, ◌==◌, [], IsTrue, IsSome, IsNone, OnOk, cond, length};
ghost use Rattle.std.specs.Option.{option_copied};
ghost use Rattle.numbered_list.specs.Numbered.{Rise, IsAt, find, set_at};
ghost use Rattle.numbered_list.specs.Changes.{AreChanges, added, olds, set_all};

use crate::places::{exchange_content, sweep_places};
use crate::search::place_of;
use crate::{Change, HasNumber, NumberedItems};
use std::alloc::{AllocError, Global};
use std::fmt::{self, Debug};
use std::marker::Model;

/// Items in the order of their numbers. What is taken out leaves its place, so that nothing behind
/// it moves and it can be put back without memory.
///
/// Contracts see the items, and beside them the room: how many there can be without memory.
#[derive(Drop)]
pub struct Numbered<X: HasNumber> {
    // numbers and what stands there, in the order of numbers
    places: Vec<Change<X>>,
    // how many items there are
    count: usize,
}

impl<X: HasNumber> Model for Numbered<X> {
    ghost use Rattle.std.specs.Prelude.{◌≡◌, length};
    ghost use Rattle.std.specs.Vec.{vec_capacity};
    ghost use Rattle.numbered_list.specs.Listed.{Listed, listed_code, present};
    ghost use Rattle.numbered_list.specs.Changes.{AreChanges};

    ghost Value = { Listed X };

    ghost coded = { listed_code X.code };

    ghost view = { λ a. record { items = present a.places.items; room = vec_capacity a.places } };

    ghost invariant = { λ a. AreChanges X.number_of a.places.items
        × (a.count ≡ length (present a.places.items)) };
}

impl<X: HasNumber + Debug> Debug for Numbered<X> {
    fn fmt<W: fmt::Write>(&self, f: &mut fmt::Formatter<W>) -> fmt::Result {
        f.debug_list().entries(self.iter()).finish()
    }
}

impl<X: HasNumber> Numbered<X> {
    /// No items, which takes no memory.
    pub fn new(alloc: Global) -> Numbered<X>
        ensures { result.items ≡ [] }
    {
        Numbered {
            places: Vec::new(alloc),
            count: 0,
        }
    }

    /// How many items there are.
    pub fn len(&self) -> usize
        ensures count { result ≡ length self.now.items }
        ensures bound { length self.now.items < 2 ^ 63 }
    {
        self.count
    }

    /// Whether there is no item.
    pub fn is_empty(&self) -> bool
        ensures { result ≡ (length self.now.items == 0) }
    {
        self.count == 0
    }

    /// The items in the order of their numbers.
    pub fn iter(&self) -> NumberedItems<'_, X>
        ensures items { result ≡ self.now.items }
        ensures rising { Rise X.number_of self.now.items }
    {
        NumberedItems::at(&self.places)
    }

    /// The item with a number.
    pub fn get(&self, number: u32) -> Option<&X>
        ensures { option_copied result ≡ find X.number_of number self.now.items }
    {
        match place_of(&self.places, number) {
            Ok(place) => self.places[place].content.as_ref(),
            Err(_) => None,
        }
    }

    /// Makes room for more items.
    pub fn reserve(&mut self, more: usize) -> Result<(), AllocError>
        ensures items { self.new.items ≡ self.old.items }
        ensures ok { OnOk result (length self.new.items + more ≤ self.new.room) }
        ensures room { self.old.room ≤ self.new.room }
    {
        self.places.reserve(more)?;
        Ok(())
    }
}

impl<X: HasNumber + Drop> Numbered<X> {
    /// Puts a new content at a number, an item or nothing, and gives back what stood there. It
    /// takes no memory. Where the number still has a place, or is above all others, nothing moves.
    pub fn exchange(&mut self, number: u32, new: Option<X>) -> Option<X>
        requires own { IsAt X.number_of number new }
        requires room { IsSome new → IsNone (find X.number_of number self.old.items)
            → length self.old.items < self.old.room }
        ensures before { result ≡ find X.number_of number self.old.items }
        ensures after { self.new.items ≡ set_at X.number_of number new self.old.items }
        ensures rising { Rise X.number_of self.new.items }
        ensures room { self.old.room ≤ self.new.room }
    {
        let comes = new.is_some();
        let old = exchange_content(&mut self.places, number, new);
        self.count = counted(self.count, comes, old.is_some());
        old
    }

    /// Lets the content of each change, in the order of their numbers, change places with what
    /// stands at its number, so that the changes then take back what they did. It takes no memory.
    pub fn exchange_all(&mut self, changes: &mut [Change<X>])
        requires changes { AreChanges X.number_of changes.old }
        requires room { length self.old.items + added X.number_of changes.old self.old.items
            ≤ self.old.room }
        ensures after { self.new.items ≡ set_all X.number_of changes.old self.old.items }
        ensures before { changes.new ≡ olds X.number_of changes.old self.old.items }
        ensures rising { Rise X.number_of self.new.items }
        ensures changes { AreChanges X.number_of changes.new }
        ensures capacity { self.old.room ≤ self.new.room }
        ensures room { length self.new.items + added X.number_of changes.new self.new.items
            ≤ self.new.room }
    {
        let _rising = self.iter();
        for change in changes.iter_mut() {
            change.content = self.exchange(change.number, change.content.take());
        }
    }

    /// Gives up the places of what was taken out, where they are more than the items. What was
    /// taken out before is then put back at the cost of moving what stands behind it.
    pub fn sweep(&mut self)
        ensures { self.new ≡ self.old }
    {
        if self.places.len() - self.count > self.count {
            sweep_places(&mut self.places);
        }
    }
}

// How many there are once one may have come and one may have gone.
fn counted(count: usize, comes: bool, goes: bool) -> usize
    requires fits { count + 1 < 2 ^ 64 }
    requires there { IsTrue goes → 0 < count }
    ensures { result + cond goes 1 0 ≡ count + cond comes 1 0 }
{
    match (comes, goes) {
        (true, false) => count + 1,
        (false, true) => count - 1,
        _ => count,
    }
}
