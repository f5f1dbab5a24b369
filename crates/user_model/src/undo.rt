//! What leads back from an edit.
use crate::{Group, Objective, Row};
use aff_core::Sequence;
use numbered_list::Change;

/// The numbers that the next group, the next variable and the next row are given.
#[derive(Clone, Copy, Debug, PartialEq, Eq)]
pub struct NextNumbers {
    pub group: u32,
    pub variable: u32,
    pub row: u32,
}

/// Groups by number, in rising order, each with its old content, or with nothing where it was
/// added.
pub type OldGroups = Sequence<Change<Group>>;

/// Rows by number, in rising order, each with its old content, or with nothing where it was added.
pub type OldRows = Sequence<Change<Row>>;

/// All that an edit changed: the groups and rows that it added, removed or changed, the old
/// objective where it changed, and the next numbers as they stood.
#[derive(Debug, Drop)]
pub struct Undo {
    pub groups: OldGroups,
    pub rows: OldRows,
    pub objective: Option<Objective>,
    pub next: NextNumbers,
}
