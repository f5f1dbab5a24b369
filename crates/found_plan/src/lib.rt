//! The items that an edit touches, rewritten without the rest of the model: whether each has a tree,
//! the expression of each variable that they name, and which leaves they had.
#![tactic(auto)]

mod kinds;
mod leaves;
mod standing;

pub use kinds::check_found;
pub use leaves::old_leaves;
pub use standing::standing_for;
