//! What an accepted edit is to make of the user's model, worked out before anything changes.
#![tactic(auto)]

mod deletion;
mod groups;
mod located;
mod made_lists;
mod objective;
mod parts;
mod plan;
mod rows;

pub use plan::{EditPlan, planned};
