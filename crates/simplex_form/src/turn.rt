//! The phases of the trail, and what is done at a basis.

/// The phase of a basis: in the first one the artificial columns are driven out, the sweep drives
/// out those left at 0, and the second one lowers the costs.
#[derive(Clone, Copy, Debug)]
pub enum Phase {
    First,
    Sweep,
    Second,
}

/// What is done at a basis by Bland's rule.
#[derive(Clone, Copy, Debug)]
pub enum Turn {
    /// The column enters in the row, and the next basis is of this phase.
    Pivot {
        phase: Phase,
        row: usize,
        column: usize,
    },
    /// The rows can't be met, and a multiplier that is to show it doesn't fit.
    Stuck,
    /// The rows can't be met.
    Infeasible,
    /// The column has a negative price and no positive entry.
    Unbounded {
        column: usize,
    },
    /// No column has a negative price.
    Optimal,
}
