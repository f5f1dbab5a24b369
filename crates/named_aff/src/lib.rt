//! Affine functions by the names of their variables, as edits have them, and sums of such terms.
#![tactic(auto)]

mod aff;
mod function;
mod sum;
mod terms;

pub use aff::{NamedAff, NamedVec};
pub use function::AffSum;
pub use sum::TermSum;
pub use terms::{NamedTerm, NamedTerms};
