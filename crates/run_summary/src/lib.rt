//! What the answers to a script come to: how many lines and refusals, the sum of the numbers after
//! `ok`, and the last answer.
#![tactic(auto)]

mod calls;
mod tally;

pub use tally::Tally;
