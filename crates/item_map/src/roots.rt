//! The items of each root, and the entries of one item taken out and put back.
ghost use Rattle.std.specs.Prelude.{◌≡◌, ◌+◌, ℕ, IsSome, OnOk, length};
ghost use Rattle.std.specs.FinMap as finite;
ghost use Rattle.std.specs.Option.{option_copied, option_map, option_to_list};
ghost use Rattle.numbered_list.specs.Numbered.{IsAt, find};
ghost use Rattle.item_map.specs.ItemAddresses.{item_of};
ghost use Rattle.item_map.specs.ItemLists.{AreOfItem, AreRootsInOrder, HasNone, HasRoomAt, HaveRoom, HaveRoomBeside, IsChangedAt, IsEmptied, IsItemWith, IsRoomier, IsSetAt, item_number, items_of, list_of, own, own_entries};

use crate::item_entries::ItemEntries;
use crate::one_root::OneRoot;
use crate::ordered::Ordered;
use aff_core::{Address, Root};
use lists::Memory;
use numbered_list::Numbered;
use std::alloc::Global;

/// The items that have entries, by root and number.
#[derive(Debug, Drop)]
pub struct ByRoot<V> {
    pub(crate) variables: OneRoot<V>,
    pub(crate) groups: OneRoot<V>,
    pub(crate) rows: OneRoot<V>,
    pub(crate) objectives: OneRoot<V>,
}

impl<V> ByRoot<V> {
    pub(crate) fn new(alloc: Global) -> ByRoot<V>
        ensures { HasNone result }
    {
        ByRoot {
            variables: OneRoot::new(alloc),
            groups: OneRoot::new(alloc),
            rows: OneRoot::new(alloc),
            objectives: OneRoot::new(alloc),
        }
    }

    /// The entries of the item that an address is at or below.
    pub(crate) fn own(&self, at: &Address) -> Option<&Ordered<V>>
        ensures { option_copied result ≡ option_map (λ item. item.entries) (own self.now at.now) }
    {
        match self.list(at.kind()).get(at.number()) {
            Some(item) => Some(&item.entries),
            None => None,
        }
    }

    fn list(&self, root: Root) -> &Numbered<ItemEntries<V>>
        ensures { result.now ≡ list_of self.now root }
    {
        match root {
            Root::Variable => &self.variables.items,
            Root::Group => &self.groups.items,
            Root::Row => &self.rows.items,
            Root::Objective => &self.objectives.items,
        }
    }
}

impl<V: Drop> ByRoot<V> {
    // Makes room for more items of each root.
    pub(crate) fn reserve(&mut self, more: usize) -> Result<(), Memory>
        ensures ok { OnOk result (HaveRoom self.new more) }
        ensures same { IsRoomier self.old self.new }
    {
        self.variables.reserve(more)?;
        self.groups.reserve(more)?;
        self.rows.reserve(more)?;
        self.objectives.reserve(more)
    }

    // Takes the entries out of the item that an address is at or below, where room stays for them.
    pub(crate) fn take(&mut self, at: &Address) -> Ordered<V>
        requires order { AreRootsInOrder self.old }
        requires room { HasRoomAt self.old at.now.root at.now.number }
        ensures entries { result ≡ own_entries self.old at.now }
        ensures taken { IsChangedAt at.now finite.empty self.old self.new }
        ensures order { AreRootsInOrder self.new }
        ensures room { HasRoomAt self.new at.now.root at.now.number }
        ensures spare { (more : ℕ) → HaveRoom self.old more → HaveRoomBeside self.new at.now.root
            (more + length (option_to_list (own self.old at.now))) more }
    {
        match self.exchange(at.kind(), at.number(), None) {
            Some(item) => item.entries,
            None => Ordered::new(),
        }
    }

    // Puts these entries into the item that an address is at or below, in the place of its own.
    pub(crate) fn put(&mut self, at: &Address, entries: Ordered<V>)
        requires order { AreRootsInOrder self.old }
        requires room { HasRoomAt self.old at.now.root at.now.number }
        requires own { AreOfItem (item_of at.now) entries }
        ensures put { IsChangedAt at.now entries self.old self.new }
        ensures order { AreRootsInOrder self.new }
        ensures spare { (more : ℕ) → HaveRoomBeside self.old at.now.root (more + 1) more
            → HaveRoom self.new more }
    {
        let item = item_with(at.number(), entries);
        drop(self.exchange(at.kind(), at.number(), item));
    }

    // Takes all items out, whose room stays.
    pub(crate) fn clear(&mut self)
        ensures { IsEmptied self.old self.new }
    {
        self.variables.clear();
        self.groups.clear();
        self.rows.clear();
        self.objectives.clear();
    }

    // Puts an item at a number, or none, and gives back what stood there.
    fn exchange(
        &mut self,
        root: Root,
        number: u32,
        new: Option<ItemEntries<V>>,
    ) -> Option<ItemEntries<V>>
        requires own { IsAt item_number number new }
        requires room { IsSome new → HasRoomAt self.old root number }
        ensures before { result ≡ find item_number number (items_of self.old root) }
        ensures set { IsSetAt root number new self.old self.new }
    {
        match root {
            Root::Variable => self.variables.exchange(number, new),
            Root::Group => self.groups.exchange(number, new),
            Root::Row => self.rows.exchange(number, new),
            Root::Objective => self.objectives.exchange(number, new),
        }
    }
}

// An item with these entries, or none where there is no entry.
fn item_with<V: Drop>(number: u32, entries: Ordered<V>) -> Option<ItemEntries<V>>
    ensures { IsItemWith number entries result }
{
    if entries.len() == 0 {
        return None;
    }
    Some(ItemEntries { number, entries })
}
