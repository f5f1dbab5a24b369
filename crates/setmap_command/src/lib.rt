//! The command `setmap_bridge`: it solves a file's model some of whose rows are in cones seen through
//! invertible matrices, and prints the certificate for these rows.
#![tactic(auto)]

mod answering;
mod command;
mod running;
mod solving;
mod telling;

pub use running::run;
