//! The dual of a model as a model that can be read, written and solved: the edits that make it, and
//! what a point of it says of the model's rows and variables.
#![tactic(auto)]

mod by_name;
mod carrying;
mod coefficients;
mod edits;
mod fault;
mod groups;
mod moving;
mod names;
mod points;
mod rows;
mod sets;
mod starting;
mod sums;

pub use carrying::{Carried, carry};
pub use edits::dual;
pub use fault::DualFault;
pub use points::is_point;
