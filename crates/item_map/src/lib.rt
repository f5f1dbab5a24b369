//! Finite maps from addresses, in which the entries of each item of the model stand by themselves.
#![tactic(auto)]

mod entries;
mod item_entries;
mod items;
mod map;
mod one_root;
mod ordered;
mod ranked;
mod roots;

pub use entries::EntriesLeft;
pub use items::RankedItems;
pub use map::ItemMap;
pub use ordered::{Ordered, Room};
