//! A run that is to be made.
use lists::Memory;
use std::alloc::Global;

/// A kind of call, one of which fails.
#[derive(Clone, Copy)]
pub(crate) enum Call {
    Write,
    Fetch,
}

/// The arguments, files and faults of a run.
#[derive(Drop)]
pub(crate) struct Case {
    pub words: Vec<String>,
    /// What the file `m.json` has.
    pub model: Vec<u8>,
    /// Whether that file isn't there.
    pub is_missing: bool,
    /// What the file `maps.txt` has.
    pub maps: Vec<u8>,
    /// Whether that file isn't there.
    pub is_without_maps: bool,
    /// Whether there are no bridges.
    pub is_bare: bool,
    /// How many bytes a write takes.
    pub piece: usize,
    /// The call that fails.
    pub failing: Option<(Call, u64)>,
}

impl Case {
    /// A case with these arguments, which are separated by spaces, and two empty files.
    pub(crate) fn new(alloc: Global, words: &str) -> Result<Case, Memory> {
        Ok(Case {
            words: words_of(alloc, words)?,
            model: Vec::new(alloc),
            is_missing: false,
            maps: Vec::new(alloc),
            is_without_maps: false,
            is_bare: false,
            piece: 4096,
            failing: None,
        })
    }

    /// The number of the call of a kind that fails, and 0 where none does.
    pub(crate) fn failing(&self, call: Call) -> u64 {
        match (self.failing, call) {
            (Some((Call::Write, number)), Call::Write)
            | (Some((Call::Fetch, number)), Call::Fetch) => number,
            _ => 0,
        }
    }
}

/// Words that are separated by spaces.
pub(crate) fn words_of(alloc: Global, text: &str) -> Result<Vec<String>, Memory> {
    let mut words = Vec::new(alloc);
    for word in text.split(' ') {
        words.push(String::from_str(alloc, word)?)?;
    }
    Ok(words)
}
