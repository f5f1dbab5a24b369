//! Lists of numbered items in the order of their numbers, and exchanges of what stands at some
//! numbers.
#![tactic(auto)]

mod change;
mod items;
mod list;
mod places;
mod search;

pub use change::Change;
pub use items::NumberedItems;
pub use list::Numbered;
pub use search::HasNumber;
