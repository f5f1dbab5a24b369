//! The objective of the dual in the making.
use ratio_core::{Ratio, Ratios};

/// The dual's objective before its sense: its constant, and what each variable of the rows' duals
/// counts.
#[derive(Debug, Drop)]
pub(crate) struct Sums {
    pub(crate) constant: Ratio,
    pub(crate) parts: Ratios,
}
