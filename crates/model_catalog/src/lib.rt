//! The user's model as it is kept: with what finds things in it by name and by number, and
//! exchanges of its content that take no memory.
#![tactic(auto)]

mod catalog;
mod exchange;
mod index;
mod lookups;
mod names;
mod room;
mod terms;
mod variable;

pub use catalog::Catalog;
pub use exchange::Exchange;
pub use index::variable_at;
pub use names::{NameChange, NameChanges};
pub use room::More;
