//! Which of the two cost rows is read.

/// A cost row, by the phase whose costs it has.
#[derive(Clone, Copy, Debug)]
pub enum CostRow {
    /// An artificial column costs 1, and a real one nothing.
    First,
    /// The form's own costs.
    Second,
}
