// A run that is to be made.
use std::alloc::Global;

/// A kind of call, one of which fails.
#[derive(Clone, Copy)]
pub enum Call {
    Read,
    Write,
}

#[derive(Drop)]
pub struct Case {
    pub words: Vec<String>,
    pub input: Vec<u8>,
    /// How many bytes a read gives and a write takes.
    pub piece: usize,
    /// The call that fails.
    pub failing: Option<(Call, u64)>,
}

impl Case {
    pub fn new(alloc: Global) -> Case {
        Case {
            words: Vec::new(alloc),
            input: Vec::new(alloc),
            piece: 4096,
            failing: None,
        }
    }

    /// The number of the call of a kind that fails, and 0 where none does.
    pub fn failing(&self, call: Call) -> u64 {
        match (self.failing, call) {
            (Some((Call::Read, number)), Call::Read) | (Some((Call::Write, number)), Call::Write) =>
                number,
            _ => 0,
        }
    }
}
