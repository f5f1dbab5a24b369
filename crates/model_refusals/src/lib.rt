//! Which refusal an edit of the user's model meets, and what an edit finds that meets none.
#![tactic(auto)]

mod accepted_edit;
mod bounds;
mod counted;
mod full;
mod group_edits;
mod limits;
mod lookups;
mod marks;
mod objective_edits;
mod refusals;
mod row_edits;
mod shapes;
mod twins;

pub use accepted_edit::{AcceptedEdit, Component, GroupedVariable, NamedRow, NamedVariable};
pub use refusals::accepted;
