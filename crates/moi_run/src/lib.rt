//! The commands of the program: what words, a script and files are answered, over any source, sink
//! and shelf.
#![tactic(auto)]

mod answers;
mod check;
mod commands;
mod generating;
mod input;
mod reply;
mod solve;
pub mod status;
pub mod stop;

pub use commands::run;
pub use status::Status;
