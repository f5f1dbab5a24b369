//! Bridges that split: a row into two, a row in all vectors into none, variables into others.
#![tactic(auto)]

mod drop_reals;
mod free_var;
mod split_set;
mod zeros_var;

pub use drop_reals::DropReals;
pub use free_var::{FreeVar, FreeVarRule};
pub use split_set::SplitSet;
pub use zeros_var::ZerosVar;
