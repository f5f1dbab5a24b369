//! What a set is apart from its numbers.

/// The type of a set.
#[derive(Clone, Copy, Debug, PartialEq, Eq)]
pub enum SetType {
    LessThan,
    GreaterThan,
    EqualTo,
    Interval,
    Reals,
    Zeros,
    Nonnegatives,
    Nonpositives,
    NormInfinityCone,
    NormOneCone,
}
