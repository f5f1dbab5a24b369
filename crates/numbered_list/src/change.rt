//! What stands, or is to stand, at a number.
use crate::HasNumber;

/// What stands at a number, or is to stand there: an item of that number, or nothing.
#[derive(Debug, Drop)]
pub struct Change<X> {
    pub number: u32,
    pub content: Option<X>,
}

impl<X> HasNumber for Change<X> {
    ghost number_of = { λ change. change.number };

    fn number(&self) -> u32 {
        self.number
    }
}
