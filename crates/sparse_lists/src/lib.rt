//! Sparse lists side by side, as the rows or the columns of a matrix, that grow together.
#![tactic(auto)]

mod across;
mod joining;

pub use across::{none, put_across};
pub use joining::joined;
