//! The text of what an attached solver holds, in the names of the user's model.
#![tactic(auto)]

mod addresses;
mod entries;
mod functions;
mod held;
mod lines;
mod places;
mod sets;

pub use held::bridged;
pub use places::place_at;
