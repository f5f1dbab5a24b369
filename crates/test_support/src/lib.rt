//! What the programs that test share: the lines that they print, and why they end early.
#![tactic(auto)]

mod page;
mod stop;

pub use page::Page;
pub use stop::Stop;
