//! Bridges that flip signs: a row of a function is the row of its negation in the mirrored set.
#![tactic(auto)]

mod flips;
mod greater_less;
mod nonpos_var;
mod obj_flip;
mod orthant_flip;

pub use greater_less::{GreaterLess, GreaterLessRule};
pub use nonpos_var::{NonposVar, NonposVarRule};
pub use obj_flip::{ObjFlip, ObjFlipRule};
pub use orthant_flip::{OrthantFlip, OrthantFlipRule};
