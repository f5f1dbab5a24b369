//! Lists of numbers that are mostly 0, of which only the others are kept.
#![tactic(auto)]

mod ratios;

pub use ratios::SparseRatios;
