//! The command `moi_dual`: it writes the dual of a file's model, or solves it and says what the
//! answer is in the model's own rows.
#![tactic(auto)]

mod answering;
mod command;
mod printing;
mod running;
mod solving;

pub use running::run;
