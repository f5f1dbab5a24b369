//! The edits that make a MathOptFormat file's model from an empty one.
#![tactic(auto)]

mod edits;
mod groups;
mod names;
mod sorting;

pub use edits::read;
pub use mof_file::MofFault;
pub use user_model::Edits;
