//! A use of a map.
use name_index::Name;
use set_core::Set;

/// A row that is to be in a set seen through a map: the map by its place in the file, the row's
/// name, the set, and the number of the line that says so.
#[derive(Debug, Drop)]
pub struct UseText {
    pub map: usize,
    pub row: Name,
    pub set: Set,
    pub line: u32,
}
