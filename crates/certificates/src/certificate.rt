//! Certificates.
use lists::Sequence;
use ratio_core::{Ratio, Ratios};

/// For each row the duals of its components.
pub type DualRows = Sequence<Ratios>;

/// What answers a model: numbers for the variables and for the rows, in the model's order. Signs of
/// duals are those of the manual of MathOptInterface.
#[derive(Debug, Drop)]
pub enum Certificate {
    /// A feasible point `x`, with duals of the same objective `value`, of the rows and of the
    /// variables.
    Optimal {
        value: Ratio,
        x: Ratios,
        rows: DualRows,
        vars: Ratios,
    },
    /// Duals whose equations come to 0, with a `gap` above 0: no point is feasible.
    Infeasible {
        gap: Ratio,
        rows: DualRows,
        vars: Ratios,
    },
    /// A feasible point `x`, with a ray `d` along which the objective improves without end.
    Unbounded {
        x: Ratios,
        d: Ratios,
    },
}
