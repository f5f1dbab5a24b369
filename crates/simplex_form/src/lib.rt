//! The exact simplex in its definitions: the form, a basis and what is read at it, Bland's rule,
//! what of a step has to fit, the trail and its outcome. Phases and turns are types of the code
//! too.
#![tactic(auto)]

mod turn;

pub use turn::{Phase, Turn};
