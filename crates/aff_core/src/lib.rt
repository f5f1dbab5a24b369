//! Addresses of items, affine functions with exact coefficients over them or other keys, and their
//! lists and maps.
#![tactic(auto)]

mod address;
mod aff;
mod affine;
mod arithmetic;
mod by_address;
mod edits;
mod folds;
mod key;
mod root;
mod sense;
mod sequence;
mod terms;

pub use address::Address;
pub use aff::Aff;
pub use affine::AffineFunction;
pub use by_address::{ByAddress, Exprs, Point};
pub use key::Key;
pub use lists::Sequence;
pub use ratio_core::Ratios;
pub use root::Root;
pub use sense::Sense;
pub use sequence::{Addresses, Affs, VecAff, has_address, without_address};
pub use terms::{negated_terms, nonzero_terms, rise_strictly, scaled_terms, summed_terms};
