//! Where child rows stand.

/// The positions of an item's child rows: `count` of them from `first` on, which is the number of
/// its child groups.
#[derive(Clone, Copy, Debug, PartialEq, Eq)]
pub struct ChildRows {
    pub first: u16,
    pub count: u16,
}
