//! Scripts that are generated from four numbers: a seed, and how many variables, rows and edits.
#![tactic(auto)]

mod generator;
mod jump;
mod lines;
mod numbers;
mod parts;
mod script;
mod terms;
mod texts;

pub use numbers::Recipe;
pub use script::{ScriptLines, script_line};
