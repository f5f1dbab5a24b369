//! Bridges of the norm cones, into rows of numbers that aren't negative.
#![tactic(auto)]

mod differences;
mod duals;
mod norm_infinity;
mod norm_one;
mod parts;

pub use norm_infinity::{NormInfinity, NormInfinityRule};
pub use norm_one::NormOne;
