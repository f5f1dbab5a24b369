//! The user's model: what it is, and what an edit makes of it.
#![tactic(auto)]

mod copies;
mod edit;
mod function;
mod group;
mod objective;
mod refusal;
mod row;
mod undo;

pub use aff_core::Sense;
pub use edit::{Edit, Edits, NamedFunc};
pub use function::UserFunc;
pub use group::{Group, GroupVar, GroupVars, Groups};
pub use objective::Objective;
pub use refusal::{ApplyFault, Refusal};
pub use row::{Row, Rows};
pub use undo::{NextNumbers, OldGroups, OldRows, Undo};
