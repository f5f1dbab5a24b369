//! The command that relaxes the model of a file: by how much at least its scalar affine rows must be
//! missed where all others are met, and a point that misses them by no more.
#![tactic(auto)]

mod answering;
mod printing;
mod running;
mod solving;

pub use running::run;
