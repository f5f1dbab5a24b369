//! Lists that contracts see as lists, how their values are copied, and the fault of running out of memory.
#![tactic(auto)]

mod duplicate;
mod memory;
mod sequence;

pub use duplicate::Duplicate;
pub use memory::Memory;
pub use sequence::Sequence;
