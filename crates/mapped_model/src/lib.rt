//! A model whose used rows are replaced by what their maps make of them, and the way back of a
//! certificate of it.
#![tactic(auto)]

mod edits;
mod fault;
mod mapping;
mod maps;
mod taking;
mod used;

pub use fault::MappingFault;
pub use mapping::map_rows;
pub use taking::MappedRows;
