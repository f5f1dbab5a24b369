//! The items of one root, each with its entries.
ghost use Rattle.std.specs.Prelude.{◌≡◌, ◌+◌, ◌<◌, ◌≤◌, [], IsNone, IsSome, MatchOption, OnOk, length};
ghost use Rattle.numbered_list.specs.Numbered.{IsAt, find, set_at};
ghost use Rattle.item_map.specs.ItemLists.{AreBetween, item_number};

use crate::item_entries::ItemEntries;
use lists::Memory;
use numbered_list::Numbered;
use std::alloc::Global;

/// The items of one root that have entries, by their numbers.
#[derive(Debug, Drop)]
pub struct OneRoot<V> {
    pub(crate) items: Numbered<ItemEntries<V>>,
    // above all numbers that there were
    next: u64,
}

impl<V> OneRoot<V> {
    pub(crate) fn new(alloc: Global) -> OneRoot<V>
        ensures { result.items.items ≡ [] }
    {
        OneRoot {
            items: Numbered::new(alloc),
            next: 0,
        }
    }

    // The numbers of the first item and of the last.
    fn ends(&self) -> Option<(u32, u32)>
        ensures { MatchOption result (self.now.items.items ≡ [])
            (λ e. AreBetween e.0 e.1 self.now.items.items) }
    {
        let first = self.items.iter().next()?;
        let last = self.items.iter().next_back()?;
        Some((first.number, last.number))
    }
}

impl<V: Drop> OneRoot<V> {
    // Makes room for more items.
    pub(crate) fn reserve(&mut self, more: usize) -> Result<(), Memory>
        ensures ok { OnOk result (length self.new.items.items + more ≤ self.new.items.room) }
        ensures items { self.new.items.items ≡ self.old.items.items }
        ensures room { self.old.items.room ≤ self.new.items.room }
    {
        self.items.reserve(more)?;
        Ok(())
    }

    // Puts an item at a number, or none, and gives back what stood there.
    pub(crate) fn exchange(
        &mut self,
        number: u32,
        new: Option<ItemEntries<V>>,
    ) -> Option<ItemEntries<V>>
        requires own { IsAt item_number number new }
        requires room { IsSome new → IsNone (find item_number number self.old.items.items)
            → length self.old.items.items < self.old.items.room }
        ensures before { result ≡ find item_number number self.old.items.items }
        ensures after { self.new.items.items
            ≡ set_at item_number number new self.old.items.items }
        ensures room { self.old.items.room ≤ self.new.items.room }
    {
        self.make_way(number);
        self.items.exchange(number, new)
    }

    // Gives up the places that emptied items left, if they are many, where the number is new: so
    // they are there as long as old numbers come back.
    fn make_way(&mut self, number: u32)
        ensures { self.new.items ≡ self.old.items }
    {
        let number = number as u64;
        if self.next <= number {
            self.items.sweep();
            self.next = number + 1;
        }
    }

    // Takes all items out, whose room stays.
    pub(crate) fn clear(&mut self)
        ensures none { self.new.items.items ≡ [] }
        ensures room { self.old.items.room ≤ self.new.items.room }
    {
        let Some((first, last)) = self.ends() else {
            return;
        };
        for number in first..last {
            drop(self.items.exchange(number, None));
        }
        drop(self.items.exchange(last, None));
    }
}
