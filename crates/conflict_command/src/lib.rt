//! The command `moi_conflict`: it says why a file's model has no feasible point, by rows that can't
//! hold together, of which none can go, with a certificate of them alone, and for each a point that
//! meets all others.
#![tactic(auto)]

mod answering;
mod printing;
mod running;
mod seeking;

pub use running::run;
