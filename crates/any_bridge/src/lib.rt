//! A bridge of any family, and lists of such bridges.
#![tactic(auto)]

mod bridge;
mod families;
mod kept_map;
mod making;
mod suited_item;

pub use bridge::AnyBridge;
pub use making::{all_bridges, bridges_of};
