//! What is kept of an undo that may still be taken back.
use model_catalog::NameChanges;

/// What an undo needs beside its contents: the names that it puts back, and the lengths that the
/// lists of groups, rows and variables have at most while they are restored.
#[derive(Debug, Drop)]
pub struct Parked {
    pub names: NameChanges,
    pub groups: usize,
    pub rows: usize,
    pub variables: usize,
}
