//! What is kept of each variable, to find its group and its bounds without a scan.
use numbered_list::HasNumber;

/// A variable by its number.
#[derive(Clone, Copy, Debug)]
pub(crate) struct Variable {
    pub(crate) number: u32,
    // the number of its group
    pub(crate) group: u32,
    // how many plain rows bound it from below, and from above
    pub(crate) lower: u64,
    pub(crate) upper: u64,
}

impl HasNumber for Variable {
    ghost number_of = { λ variable. variable.number };

    fn number(&self) -> u32 {
        self.number
    }
}
