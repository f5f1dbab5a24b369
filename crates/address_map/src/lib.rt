//! Which solver index each leaf address has, and what each variable is in leaf variables.
#![tactic(auto)]

mod map;
mod notes;
mod places;
mod reserved;

pub use aff_core::{Address, Aff};
pub use item_map::{EntriesLeft, RankedItems};
pub use lists::Memory;
pub use map::AddressMap;
pub use notes::AddressSet;
