//! The words of a command line, without the program's name.
#![tactic(auto)]

mod files;
mod generate;
mod given;
mod options;
pub mod words;

pub use words::{Invocation, Setup, read_words};
