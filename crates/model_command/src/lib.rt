//! What the commands that solve one model share: the model's cache, how it is solved, and what is
//! answered where no solver is attached or it gives no certificate.
#![tactic(auto)]

mod caching;
mod solving;
mod telling;

pub use caching::cache_of;
pub use solving::{PIVOTS, Solution, solve};
pub use telling::{tell_attach, tell_optimize};
