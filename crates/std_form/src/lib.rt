//! The equality form of the solver's model, and answers of the form read back.
#![tactic(auto)]

mod cells;
mod equation;
mod fault;
mod form;
mod leaves;
mod listing;
mod numbers;
mod reading;
mod rights;
mod terms;

pub use address_map::AddressMap;
pub use fault::FormFault;
pub use form::CELL_LIMIT;
pub use listing::{Listing, build, read_back};
