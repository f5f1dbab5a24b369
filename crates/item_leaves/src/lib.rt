//! The leaves of a user's item in the map of addresses: they stand together in its order, so they are
//! listed in the time of as many look-ups, whatever else the map has.
#![tactic(auto)]

mod listing;

pub use listing::{list_rows, list_variables};
