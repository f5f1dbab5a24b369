//! What answers a linear model in its own rows: an optimal point with duals, or a certificate that
//! there is no feasible point or no best one.
//!
//! The files in specs/ say which certificates are good, and what follows of a model that has one.
#![tactic(auto)]

mod certificate;

pub use certificate::{Certificate, DualRows};
