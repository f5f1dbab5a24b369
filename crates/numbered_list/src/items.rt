//! The items that are left of a list, one after the other.
ghost use Rattle.std.specs.Prelude.{◌≡◌, List};
ghost use Rattle.std.specs.Iterator.{YieldsFirstRef, YieldsLastRef, item_count};
ghost use Rattle.numbered_list.specs.Listed.{present};

use crate::Change;
use std::marker::Model;

/// The items that are left, in the order of their numbers.
#[derive(Drop)]
pub struct NumberedItems<'a, X> {
    places: &'a [Change<X>],
}

impl<'a, X> Model for NumberedItems<'a, X> {
    ghost use Rattle.std.specs.Prelude.{List};
    ghost use Rattle.std.specs.Coded.{coded_list};
    ghost use Rattle.numbered_list.specs.Listed.{present};

    ghost Value = { List X };

    ghost coded = { coded_list X.code };

    ghost view = { λ a. present a.places.now };
}

impl<'a, X> NumberedItems<'a, X> {
    // The items that stand at these places.
    pub(crate) fn at(places: &'a [Change<X>]) -> NumberedItems<'a, X>
        ensures { result ≡ present places.now }
    {
        NumberedItems { places }
    }
}

impl<'a, X> Iterator for NumberedItems<'a, X> {
    type Item = &'a X;

    ghost next_gives = { YieldsFirstRef (λ items. items) };

    ghost remaining = { item_count (λ items. items) };

    fn next(&mut self) -> Option<&'a X> {
        while let Some((first, others)) = self.places.split_first() {
            self.places = others;
            if let Some(item) = &first.content {
                return Some(item);
            }
        }
        None
    }
}

impl<'a, X> DoubleEndedIterator for NumberedItems<'a, X> {
    ghost next_back_gives = { YieldsLastRef (λ items. items) };

    fn next_back(&mut self) -> Option<&'a X> {
        while let Some((last, others)) = self.places.split_last() {
            self.places = others;
            if let Some(item) = &last.content {
                return Some(item);
            }
        }
        None
    }
}
