//! The entries at and below the address of one item.
use crate::ordered::Ordered;
use numbered_list::HasNumber;

/// The entries at and below the address of an item, whose number this is.
#[derive(Debug, Drop)]
pub struct ItemEntries<V> {
    pub(crate) number: u32,
    pub(crate) entries: Ordered<V>,
}

impl<V> HasNumber for ItemEntries<V> {
    ghost number_of = { λ item. item.number };

    fn number(&self) -> u32 {
        self.number
    }
}
