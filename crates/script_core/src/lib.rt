//! The grammar of a script: what a line says.
#![tactic(auto)]

mod changes;
mod command;
mod edge_cost;
mod fault;
mod function;
mod keyword;
mod line;
mod names;
mod reading;
mod rows;
mod sets;
mod solver;
mod tables;
mod terms;
mod variables;

pub use command::Command;
pub use edge_cost::EdgeCost;
pub use fault::LineFault;
pub use line::parse_line;
pub use sets::vector_set;
