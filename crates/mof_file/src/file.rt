//! What a file says.
use crate::constraints::FileConstraint;
use crate::objectives::FileObjective;
use indexmap::IndexSet;
use name_index::Name;

/// A file's variables in order, its objective, and its constraints in order.
#[derive(Debug, Drop)]
pub struct MofFile {
    pub variables: IndexSet<Name>,
    pub objective: FileObjective,
    pub constraints: Vec<FileConstraint>,
}
