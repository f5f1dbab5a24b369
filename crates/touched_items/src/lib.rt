//! The user's items that an edit touches, found from what its undos list: nothing else is looked at.
#![tactic(auto)]

mod changed;
mod differing;
mod found;
mod listed;
mod same;
mod separating;

pub use changed::{changed_variables, own_variables};
pub use differing::{Differing, ModelItems, compare_listed};
pub use found::{FoundItems, find_items};
pub use listed::{ListedChanges, list_undos};
