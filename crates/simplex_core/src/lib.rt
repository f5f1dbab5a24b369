//! The exact simplex: a form of equations is solved by Bland's rule in two phases, with an
//! allowance of pivots.
#![tactic(auto)]

mod answer;
mod fault;
mod form;
mod read_off;
mod rule;
mod run;
mod simplex;

pub use answer::{Basis, SolverAnswer};
pub use fault::SolveFault;
pub use form::{Flags, StdForm};
pub use simplex::{solve, solve_dense};
