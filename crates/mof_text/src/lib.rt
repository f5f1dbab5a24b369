//! JSON texts in which exact text stands for each numeral that a reader of floats might round.
#![tactic(auto)]

mod decimal;
mod digits;
mod numeral;
mod pieces;
mod rewriting;
mod tenths;

pub use lists::Memory;
pub use rewriting::exact_numerals;
