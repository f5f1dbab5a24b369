//! The equality form.
use lists::Sequence;
use ratio_core::Ratios;
use sparse_ratios::SparseRatios;

/// One flag a row.
pub type Flags = Sequence<bool>;

/// The least cost of `c` numbers, each at least 0, that meet `m` equations.
#[derive(Debug, Drop)]
pub struct StdForm {
    /// How many rows there are.
    pub m: usize,
    /// How many columns there are.
    pub c: usize,
    /// The matrix of `m * c` numbers, row by row.
    pub matrix: SparseRatios,
    /// The right side of each row, at least 0.
    pub right: Ratios,
    /// The cost of each column.
    pub costs: Ratios,
    /// Which rows were multiplied by -1, so that their right side is at least 0. It tells nothing
    /// to `solve`.
    pub flips: Flags,
}
