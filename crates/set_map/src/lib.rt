//! Set maps: sets seen through an invertible matrix, which is given with its inverse.
//!
//! A contract sees a matrix as the list of its rows, and a map as its matrix.
#![tactic(auto)]

mod combining;
mod fault;
mod mapping;
mod matrices;
mod numbers;
mod units;

pub use fault::MapFault;
pub use mapping::SetMap;
