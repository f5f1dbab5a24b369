//! What the file says.
use crate::map_text::MapText;
use crate::use_text::UseText;
use lists::Sequence;

/// The maps and the uses of the lines before the first wrong one, and that line's number from 1. A
/// file that ends too early has its wrong line after the last.
#[derive(Debug, Drop)]
pub struct MapFile {
    pub maps: Sequence<MapText>,
    pub uses: Sequence<UseText>,
    pub wrong: Option<u32>,
}
