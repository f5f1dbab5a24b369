//! The relaxation of a model as a model that can be solved: the edits that lead to it, and what a
//! certificate of it says of the model's rows.
#![tactic(auto)]

mod edits;
mod names;
mod reading;
mod rows;

pub use edits::relaxed;
pub use reading::{Relaxation, relaxation_of};
pub use rows::is_soft;
