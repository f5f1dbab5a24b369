//! What the commands over the file of one model share: the argument that names the file, its model,
//! the lines of numbers of its variables and rows, and how a run ends by its answer. None of it knows a solver.
#![tactic(auto)]

mod duals;
mod ending;
mod given;
mod loading;
mod numbers;
pub mod status;
mod variables;
mod words;

pub use duals::push_row_duals;
pub use ending::end_with;
pub use given::arguments;
pub use loading::{make_all, model_by, model_of};
pub use numbers::push_numbers;
pub use status::Status;
pub use words::{file_name, is_file_word, model_word};
