//! Bridges by slack variables: `f in S` is `s in S` and `f - s = 0`, and the like.
#![tactic(auto)]

mod later;
mod obj_slack;
mod scalar_slack;
mod vector_slack;

pub use later::{Later, LaterRule};
pub use obj_slack::ObjSlack;
pub use scalar_slack::{ScalarSlack, ScalarSlackRule};
pub use vector_slack::{VectorSlack, VectorSlackRule};
