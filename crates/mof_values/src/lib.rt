//! Values at the places of a MathOptFormat file, read from its JSON value, or the first fault with
//! its place.
#![tactic(auto)]

mod fault;
mod fields;
mod numbers;
mod sets;
mod texts;

pub use fault::{FaultKind, MofFault, here};
pub use fields::{array, at_key, field, require_object};
pub use numbers::{integer, integer_field, number, number_field};
pub use sets::read_set;
pub use texts::{given_name, is, kind, name, text, unknown_kind};
