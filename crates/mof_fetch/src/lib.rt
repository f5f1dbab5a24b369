//! The edits of a MathOptFormat file that is fetched by its name.
#![tactic(auto)]

mod fault;
mod fetch;

pub use fault::FileFault;
pub use fetch::fetch_edits;
