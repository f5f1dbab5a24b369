//! Edits made one after another, all or none.
#![tactic(auto)]

mod fault;
mod loading;

pub use fault::Unmade;
pub use loading::{load_all, make_all, settle_all, take_back, take_back_all};
