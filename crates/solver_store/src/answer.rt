//! What a solver answers.
use crate::{LeafDuals, LeafPoint};

/// A solver's answer, by the indices of its variables and rows.
#[derive(Debug, Drop)]
pub enum LeafAnswer {
    /// An optimal point, and the dual of each row.
    Optimal { x: LeafPoint, y: LeafDuals },
    /// The dual of each row in a certificate of infeasibility.
    Infeasible { y: LeafDuals },
    /// A feasible point, and a ray along which the objective improves without end.
    Unbounded { x: LeafPoint, d: LeafPoint },
}
