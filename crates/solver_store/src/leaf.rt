//! What a solver takes: variables, rows and an objective.
use crate::{Sense, Set};
use aff_core::AffineFunction;
use lists::Sequence;

/// A solver's variable.
#[derive(Clone, Copy, Debug, PartialEq, Eq)]
pub enum LeafVar {
    Free,
    /// At least 0.
    Nonneg,
}

/// An affine function of solver indices.
pub type SolverAff = AffineFunction<usize>;

/// A list of affine functions of solver indices.
pub type SolverVec = Sequence<SolverAff>;

/// A solver's row: a function is in a set.
#[derive(Debug, Drop)]
pub enum LeafRow {
    Plain { var: usize, set: Set },
    Affine { func: SolverAff, set: Set },
    AffineVec { func: SolverVec, set: Set },
}

/// What a solver makes least or greatest.
#[derive(Debug, Drop)]
pub enum LeafObjective {
    Plain { sense: Sense, var: usize },
    Affine { sense: Sense, func: SolverAff },
}
