//! The edit that adds a row again that was deleted from a model: its function by the names of the
//! model's variables. Where the row stood it is accepted, and the row is last.
#![tactic(auto)]

mod function;
mod row;

pub use function::named_function;
pub use row::row_edit;
