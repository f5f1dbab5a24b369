//! The items that are left of a list, one after the other.
ghost use Rattle.std.specs.Prelude.{◌≡◌, drop};
ghost use Rattle.std.specs.Iterator.{YieldsFirstRef, item_count};

use crate::ranked::Ranked;
use std::marker::Model;

/// The items that are left, in their order.
///
/// A step goes down the tree once: a fork knows none of those above it, and a list of these would
/// take memory.
#[derive(Drop)]
pub struct RankedItems<'a, T> {
    list: &'a Ranked<T>,
    // of the next item
    place: usize,
}

impl<'a, T> Model for RankedItems<'a, T> {
    ghost use Rattle.std.specs.Prelude.{List, drop};
    ghost use Rattle.std.specs.Coded.{coded_list};

    ghost Value = { List T };

    ghost coded = { coded_list T.code };

    ghost view = { λ a. drop a.place a.list.now };
}

impl<'a, T> RankedItems<'a, T> {
    // The items of a list from a place on.
    pub(crate) fn starting_at(list: &'a Ranked<T>, place: usize) -> RankedItems<'a, T>
        ensures { result ≡ drop place list.now }
    {
        RankedItems { list, place }
    }
}

impl<'a, T> Iterator for RankedItems<'a, T> {
    type Item = &'a T;

    ghost next_gives = { YieldsFirstRef (λ items. items) };

    ghost remaining = { item_count (λ items. items) };

    #[tactic(auto, using(crate::proofs::ItemLaws::none_left))]
    fn next(&mut self) -> Option<&'a T> {
        let item = self.list.get(self.place)?;
        // what this ensures: 64 bits count the items, so the place after the item fits too
        let _len = self.list.len();
        self.place += 1;
        Some(item)
    }
}
