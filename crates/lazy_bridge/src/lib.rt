//! Lazy bridging: the solver's model is kept as the fresh bridging of the user's.
#![tactic(auto)]

mod alike;
mod bridges;
mod change;
mod expressing;
mod lazy;
mod marks;
mod mentions;
mod pushing;
mod retabling;

pub use bridges::add_bridge;
pub use lazy::Lazy;
pub use model_bridging::PushFault;
