//! Bridges, one a family, and which edge each kind takes, by a table and the bridges that there are.
#![tactic(auto)]

mod choosing;
mod holding;
mod places;

pub use holding::BridgeSet;
pub use places::has_family;
