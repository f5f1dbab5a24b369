//! The solver's model: leaf variables and rows under indices of the store's choice, and an
//! objective.
#![tactic(auto)]

mod answer;
mod by_index;
mod leaf;
mod model;

pub use aff_core::Sense;
pub use answer::LeafAnswer;
pub use by_index::{ByIndex, LeafDuals, LeafPoint};
pub use leaf::{LeafObjective, LeafRow, LeafVar, SolverAff, SolverVec};
pub use lists::Memory;
pub use model::SolverModel;
pub use set_core::Set;
