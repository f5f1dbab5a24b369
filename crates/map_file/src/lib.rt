//! The file of maps and of the rows that are seen through them: what its lines say, as far as the
//! first wrong one.
#![tactic(auto)]

mod file;
mod map_text;
mod numbers;
mod reader;
mod reading;
mod size;
mod use_text;
mod words;

pub use file::MapFile;
pub use map_text::MapText;
pub use reading::read;
pub use use_text::UseText;
