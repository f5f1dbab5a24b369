//! What is wrong with a file, and where.
ghost use Rattle.std.specs.Prelude.{◌≡◌, [], ◌∷◌, ◌++◌, IfOk, decimal};
ghost use Rattle.mof_values.specs.Walked.{here, index, key_part};

use itoa::Buffer;
use lists::Memory;
use name_index::Text;
use std::alloc::{AllocError, AllocFailed, Global};

/// The first fault of a file, with the JSON pointer of the value, or of the key that is missing.
/// The place of a text that is no JSON or no object is `-`.
#[derive(Debug, Drop)]
pub enum MofFault {
    /// The text is no JSON.
    NotJson { place: Text },
    /// A key is missing, or a value isn't of the type that its place wants.
    Shape { place: Text },
    /// The major version isn't 1.
    Version { place: Text },
    /// A function or a set of a type that isn't read, or a vector function as the objective.
    UnknownKind { place: Text },
    /// No number where one stands, or terms of one variable whose sum doesn't fit.
    BadNumber { place: Text },
    /// An earlier variable has the name.
    DuplicateName { place: Text },
    /// No variable of the file has the name.
    UnknownName { place: Text },
    /// A vector function has another number of components than its set's dimension.
    Dimension { place: Text },
    /// There was no memory left.
    Memory,
}

/// What is wrong with a file, as `MofFault` says, without the place.
#[derive(Clone, Copy, Debug, PartialEq, Eq)]
pub enum FaultKind {
    NotJson,
    Shape,
    Version,
    UnknownKind,
    BadNumber,
    DuplicateName,
    UnknownName,
    Dimension,
}

impl From<Memory> for MofFault {
    ghost use Rattle.mof_values.specs.declared.fault.MofFault.TheVariants.{Memory};

    ghost from_gives = { λ _ fault. fault ≡ Memory };

    fn from(_memory: Memory) -> MofFault {
        MofFault::Memory
    }
}

impl From<AllocError> for MofFault {
    ghost use Rattle.mof_values.specs.declared.fault.MofFault.TheVariants.{Memory};

    ghost from_gives = { λ _ fault. fault ≡ Memory };

    fn from(_error: AllocError) -> MofFault {
        MofFault::Memory
    }
}

impl<T: Drop> From<AllocFailed<T>> for MofFault {
    ghost use Rattle.mof_values.specs.declared.fault.MofFault.TheVariants.{Memory};

    ghost from_gives = { λ _ fault. fault ≡ Memory };

    fn from(_error: AllocFailed<T>) -> MofFault {
        MofFault::Memory
    }
}

/// The place of the very value that is walked.
pub fn here(alloc: Global) -> Text
    ensures { result ≡ here }
{
    Text::new(alloc)
}

impl MofFault {
    ghost use Rattle.mof_values.specs.Walked.{TellsMofFault, index, key_part, under};

    /// The fault of a value at a key, seen from the object.
    pub fn under_key(self, alloc: Global, name: &str) -> MofFault
        ensures { TellsMofFault result (under (key_part name.now) self) }
    {
        match key_part(alloc, name) {
            Ok(part) => self.under(alloc, &part),
            Err(_) => MofFault::Memory,
        }
    }

    /// The fault of an item, seen from the array.
    pub fn under_index(self, alloc: Global, place: usize) -> MofFault
        ensures { TellsMofFault result (under (index place) self) }
    {
        match index_part(alloc, place) {
            Ok(part) => self.under(alloc, &part),
            Err(_) => MofFault::Memory,
        }
    }

    fn under(self, alloc: Global, part: &[u8]) -> MofFault
        ensures { TellsMofFault result (under part.now self) }
    {
        match self.moved(alloc, part) {
            Ok(fault) => fault,
            Err(_) => MofFault::Memory,
        }
    }

    fn moved(self, alloc: Global, part: &[u8]) -> Result<MofFault, Memory>
        ensures { IfOk result (λ fault. fault ≡ under part.now self) }
    {
        Ok(match self {
            MofFault::NotJson { place } => MofFault::NotJson {
                place: joined(alloc, part, &place)?,
            },
            MofFault::Shape { place } => MofFault::Shape {
                place: joined(alloc, part, &place)?,
            },
            MofFault::Version { place } => MofFault::Version {
                place: joined(alloc, part, &place)?,
            },
            MofFault::UnknownKind { place } => MofFault::UnknownKind {
                place: joined(alloc, part, &place)?,
            },
            MofFault::BadNumber { place } => MofFault::BadNumber {
                place: joined(alloc, part, &place)?,
            },
            MofFault::DuplicateName { place } => MofFault::DuplicateName {
                place: joined(alloc, part, &place)?,
            },
            MofFault::UnknownName { place } => MofFault::UnknownName {
                place: joined(alloc, part, &place)?,
            },
            MofFault::Dimension { place } => MofFault::Dimension {
                place: joined(alloc, part, &place)?,
            },
            MofFault::Memory => MofFault::Memory,
        })
    }
}

// A pointer with a part before it.
fn joined(alloc: Global, part: &[u8], place: &Text) -> Result<Text, Memory>
    ensures { IfOk result (λ place_after. place_after ≡ part.now ++ place.now) }
{
    let mut text = Vec::new(alloc);
    text.extend_from_slice(part)?;
    text.extend_from_slice(place.as_slice())?;
    Ok(Text::from_vec(text))
}

fn key_part(alloc: Global, name: &str) -> Result<Vec<u8>, Memory>
    ensures { IfOk result (λ part. part.items ≡ key_part name.now) }
{
    let mut part = Vec::from_slice(alloc, b"/")?;
    part.extend_from_slice(name.as_bytes())?;
    Ok(part)
}

fn index_part(alloc: Global, place: usize) -> Result<Vec<u8>, Memory>
    ensures { IfOk result (λ part. part.items ≡ index place) }
{
    let mut digits = Buffer::new();
    let mut part = Vec::from_slice(alloc, b"/")?;
    part.extend_from_slice(digits.format(place).as_bytes())?;
    Ok(part)
}
