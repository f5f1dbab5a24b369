//! The lines of a script, read out of a source of bytes.
#![tactic(auto)]

pub mod line_reader;

pub use line_reader::{LineReader, Next, ReadStop};
