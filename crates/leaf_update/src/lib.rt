//! The change step over the solver's model and the address map alone: leaves are changed in place,
//! with no more calls of the solver's model than leaves that differ.
#![tactic(auto)]

mod change;
mod gone;
mod indexed;
mod objective;
mod others;
mod rows;
mod same;
mod sorted;
mod variables;

pub use change::{GoneLeaves, change_leaves};
pub use gone::gone_among;
pub use others::replace_leaves;
