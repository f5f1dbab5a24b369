// A run that is to be made.
use std::alloc::Global;

/// A text of a case.
#[derive(Clone, Copy)]
pub enum Part {
    Model,
    Certificate,
    Script,
}

/// A kind of call, one of which fails.
#[derive(Clone, Copy)]
pub enum Call {
    Read,
    Write,
    Fetch,
}

#[derive(Drop)]
pub struct Case {
    pub words: Vec<String>,
    /// What stands in the file `m.json`.
    pub model: Vec<u8>,
    /// What stands in the file `c.txt`.
    pub certificate: Vec<u8>,
    pub script: Vec<u8>,
    /// To which text the next lines belong.
    pub part: Part,
    /// How many bytes a read gives and a write takes.
    pub piece: usize,
    /// The call that fails.
    pub failing: Option<(Call, u64)>,
    /// Whether each write runs out of memory.
    pub full: bool,
    /// Whether the session has a few boxed bridges, in place of one of each family.
    pub boxed: bool,
    /// Whether what the session is left with is printed.
    pub left: bool,
    /// The line of which is printed what it does to the solver's model.
    pub last: Option<String>,
}

impl Case {
    pub fn new(alloc: Global) -> Case {
        Case {
            words: Vec::new(alloc),
            model: Vec::new(alloc),
            certificate: Vec::new(alloc),
            script: Vec::new(alloc),
            part: Part::Script,
            piece: 4096,
            failing: None,
            full: false,
            boxed: false,
            left: false,
            last: None,
        }
    }

    /// The text to which the next lines belong.
    pub fn text(&mut self) -> &mut Vec<u8> {
        match self.part {
            Part::Model => &mut self.model,
            Part::Certificate => &mut self.certificate,
            Part::Script => &mut self.script,
        }
    }

    /// The number of the call of a kind that fails, and 0 where none does.
    pub fn failing(&self, call: Call) -> u64 {
        match (self.failing, call) {
            (Some((Call::Read, number)), Call::Read)
            | (Some((Call::Write, number)), Call::Write)
            | (Some((Call::Fetch, number)), Call::Fetch) => number,
            _ => 0,
        }
    }
}
