//! Another table for a bridged model: which kinds it bridges otherwise, and which items are of these.
#![tactic(auto)]

mod changed;
mod found;
mod kinds;

pub use changed::{Choices, changed_kinds, list_choices};
pub use found::find_changed;
