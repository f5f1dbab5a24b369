//! The verdict on a certificate: whether the text of one file proves what it says of the model of
//! another.
#![tactic(auto)]

mod judging;
mod verdict_text;

pub use judging::verdict;
