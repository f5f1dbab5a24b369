//! Sets of values: their types, dimensions and bounds, membership, dual sets, recession sets and
//! the least product with a dual.
#![tactic(auto)]

mod cones;
mod fault;
mod membership;
mod numbers;
mod set;
mod set_type;

pub use fault::SetOverflow;
pub use set::Set;
pub use set_type::SetType;
