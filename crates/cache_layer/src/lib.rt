//! The user's model with a solver attached or not: MathOptInterface's CachingOptimizer. While a
//! solver is attached, its model is the fresh bridging of the user's.
#![tactic(auto)]

mod bridging;
mod cache;
mod edits;
mod fault;
mod groups;
mod optimize;
mod solving;

pub use cache::Cache;
pub use cert_core::Certificate;
pub use fault::{AttachFault, EditFault, GroupFault, NotAttached, OptFault};
pub use report_core::Place;
