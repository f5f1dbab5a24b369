//! Certificates as text: a line for each number of a variable and for the duals of each row, in the
//! user's names.
#![tactic(auto)]

mod heading;
mod printing;
mod reading;
mod variables;

pub use printing::print;
pub use reading::read;
