//! The session of a script: each line is a step of the script machine.
#![tactic(auto)]

mod groups;
mod held;
mod lines;
mod loading;
mod optimizing;
mod plan;
mod refusals;
mod session;
mod tables;

pub use cache_layer::Cache;
pub use report_core::Answer;
pub use session::Session;
