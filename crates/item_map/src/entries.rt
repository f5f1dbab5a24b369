//! The entries that are left of a map, one after the other.
ghost use Rattle.std.specs.Prelude.{◌≡◌, ◌∷◌, ◌++◌, [], MatchOption};
ghost use Rattle.std.specs.Iterator.{YieldsFirstRef, item_count};
ghost use Rattle.item_map.specs.ItemsLeft.{items_left};
ghost use Rattle.item_map.specs.ItemLists.{of_items};

use crate::item_entries::ItemEntries;
use crate::items::RankedItems;
use aff_core::Address;
use std::marker::Model;

/// The items that are left, those of one root after those of the one before.
#[derive(Drop)]
pub struct ItemsLeft<'a, V> {
    pub(crate) variables: numbered_list::NumberedItems<'a, ItemEntries<V>>,
    pub(crate) groups: numbered_list::NumberedItems<'a, ItemEntries<V>>,
    pub(crate) rows: numbered_list::NumberedItems<'a, ItemEntries<V>>,
    pub(crate) objectives: numbered_list::NumberedItems<'a, ItemEntries<V>>,
}

impl<'a, V> ItemsLeft<'a, V> {
    // The first that is left.
    fn take_first(&mut self) -> Option<&'a ItemEntries<V>>
        ensures { MatchOption result ((items_left self.old ≡ []) × (items_left self.new ≡ []))
            (λ item. items_left self.old ≡ item.now ∷ items_left self.new) }
    {
        if let Some(item) = self.variables.next() {
            return Some(item);
        }
        if let Some(item) = self.groups.next() {
            return Some(item);
        }
        if let Some(item) = self.rows.next() {
            return Some(item);
        }
        self.objectives.next()
    }
}

/// The entries that are left, in the order of their addresses.
#[derive(Drop)]
pub struct EntriesLeft<'a, V> {
    own: RankedItems<'a, (Address, V)>,
    left: ItemsLeft<'a, V>,
}

impl<'a, V> Model for EntriesLeft<'a, V> {
    ghost use Rattle.std.specs.Prelude.{List, ◌++◌};
    ghost use Rattle.std.specs.Coded.{coded_list, coded×};
    ghost use Rattle.aff_core.specs.Address.{Address, address_code};
    ghost use Rattle.item_map.specs.ItemsLeft.{items_left};
    ghost use Rattle.item_map.specs.ItemLists.{of_items};

    ghost Value = { List (Address × V) };

    ghost coded = { coded_list (coded× address_code V.code) };

    ghost view = { λ a. a.own ++ of_items (items_left a.left) };
}

impl<'a, V> EntriesLeft<'a, V> {
    // These entries, and then those of the items.
    pub(crate) fn of(
        own: RankedItems<'a, (Address, V)>,
        left: ItemsLeft<'a, V>,
    ) -> EntriesLeft<'a, V>
        ensures { result ≡ own.entry ++ of_items (items_left left.entry) }
    {
        EntriesLeft { own, left }
    }
}

impl<'a, V> Iterator for EntriesLeft<'a, V> {
    type Item = &'a (Address, V);

    ghost next_gives = { YieldsFirstRef (λ entries. entries) };

    ghost remaining = { item_count (λ entries. entries) };

    fn next(&mut self) -> Option<&'a (Address, V)> {
        'entries: loop {
            if let Some(entry) = self.own.next() {
                return Some(entry);
            }
            let Some(item) = self.left.take_first() else {
                return None;
            };
            self.own = item.entries.iter();
        }
    }
}
