//! Why a model has no feasible point: rows that can't hold together, none of which can be left out
//! (an irreducible infeasible subsystem, found by the deletion filter). This is MathOptInterface's
//! `compute_conflict!`, with a certificate of the rows and, for each row, a point that meets all
//! others.
#![tactic(auto)]

mod finding;
mod found;
mod optimizing;
mod trials;

pub use cache_layer::Certificate;
pub use finding::{ConflictFault, find, find_in};
pub use found::{Found, Points};
