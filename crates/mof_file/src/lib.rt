//! What a MathOptFormat file says: the walk over its JSON value, with the first fault and its
//! place.
#![tactic(auto)]

mod constraints;
mod file;
mod functions;
mod items;
mod objectives;
mod scalar;
mod terms;
mod variables;
mod vectors;
mod versions;
mod walks;

pub use constraints::FileConstraint;
pub use file::MofFile;
pub use mof_values::MofFault;
pub use objectives::FileObjective;
pub use walks::read_file;
