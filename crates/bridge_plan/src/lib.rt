//! How an item is bridged: along the chosen edges down to what the solver supports, with the
//! expressions of its components.
#![tactic(auto)]

mod entry;
mod expressions;
mod functions;
mod plan;
mod planning;
mod renaming;
mod rewriter;
mod standing;

pub use entry::Entry;
pub use plan::Plan;
pub use planning::{edge_of, plan_item};
pub use rewriter::Rewriter;
pub use standing::Standing;
