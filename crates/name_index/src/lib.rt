//! Names of variables and rows: the text of a name, its escapes in a script, and a one-to-one table
//! of names and numbers.
#![tactic(auto)]

mod kept_text;
mod name;
mod table;

pub use lists::Memory;
pub use name::{Name, NameFault};
pub use table::NameTable;

/// Names in a row.
pub type Names = lists::Sequence<Name>;

/// Text as bytes.
pub type Text = lists::Sequence<u8>;
