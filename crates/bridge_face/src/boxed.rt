//! Boxed bridges, each a bridge as what it boxes.

use crate::{Bridge, ChildRows};
use aff_core::Address;
use item_core::{Edge, Family, Image, Item};
use lists::Memory;
use ratio_core::{NumberFault, Ratios};

impl Bridge for Box<dyn Bridge> {
    ghost state = { λ b. (Bridge-box b).state b.value };

    fn family(&self) -> Family {
        (**self).family()
    }

    fn turns(&self) -> u64 {
        (**self).turns()
    }

    fn image(&mut self, edge: Edge, item: &Item) -> Result<Image, NumberFault> {
        (**self).image(edge, item)
    }

    fn keep(&mut self, edge: Edge, item: Item) -> Result<(), (Item, Memory)> {
        (**self).keep(edge, item)
    }

    fn alter(&mut self, item: Item) -> Item {
        (**self).alter(item)
    }

    fn let_go(&mut self, at: &Address) -> Option<Item> {
        (**self).let_go(at)
    }

    fn let_all_go(&mut self) {
        (**self).let_all_go()
    }

    fn first_of(&self, at: &Address) -> Option<Address> {
        (**self).first_of(at)
    }

    fn child_rows(&self, at: &Address) -> Option<ChildRows> {
        (**self).child_rows(at)
    }

    fn back(&self, at: &Address, duals: &[Ratios]) -> Result<Ratios, NumberFault> {
        (**self).back(at, duals)
    }
}
