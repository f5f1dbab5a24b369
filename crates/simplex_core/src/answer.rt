//! What the simplex answers.
use lists::Sequence;
use ratio_core::Ratios;

/// The basic column of each row. The real columns are numbered from 0, and after them the
/// artificial ones, one a row.
pub type Basis = Sequence<usize>;

/// How a form comes out, with the basis at which the trail ends.
#[derive(Debug, Drop)]
pub enum SolverAnswer {
    /// The point `x`, one number a column, costs least, and the multipliers `y`, one a row, cost
    /// the same.
    Optimal { x: Ratios, y: Ratios, basis: Basis },
    /// No point meets the rows: the multipliers `y` are at most 0 on each column and above 0 on the
    /// right sides.
    Infeasible { y: Ratios, basis: Basis },
    /// From the point `x` the costs fall without end along the ray `d`.
    Unbounded { x: Ratios, d: Ratios, basis: Basis },
}
