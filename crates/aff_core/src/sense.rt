//! What is sought of an objective.

/// Whether the least or the greatest value is sought.
#[derive(Clone, Copy, Debug, PartialEq, Eq)]
pub enum Sense {
    Min,
    Max,
}
