//! Models as MathOptFormat files.
#![tactic(auto)]

mod constraints;
mod functions;
mod model;
mod numbers;
mod sets;
mod vectors;

pub use lists::Memory;
pub use model::write;
