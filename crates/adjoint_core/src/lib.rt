//! Answers for the leaf model, carried back to certificates in the user's own rows.
#![tactic(auto)]

mod carrying;
mod costs;
mod fault;
mod gap;
mod leaf_numbers;
mod rows;
mod values;

pub use carrying::carry_back;
pub use fault::BackFault;
