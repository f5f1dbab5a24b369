//! Items that a bridge keeps.

use item_core::{Edge, Item};

/// An item with the edge that rewrote it.
#[derive(Debug, Drop)]
pub struct KeptItem {
    pub edge: Edge,
    pub item: Item,
}
