//! Why no edits are read of a file.
ghost use Rattle.std.specs.Prelude.{◌≡◌};

use mof_values::{FaultKind, MofFault};
use name_index::Text;

/// Why no edits are read of a file.
#[derive(Debug, Drop)]
pub enum FileFault {
    /// There is no such file, or reading it failed.
    Failed,
    /// The file has more than 67,108,864 bytes.
    TooLong,
    /// The file has a fault of this kind at this place.
    Unread { kind: FaultKind, place: Text },
    /// There was no memory left.
    Memory,
}

impl From<MofFault> for FileFault {
    ghost use Rattle.mof_fetch.specs.Fetched.{fault_of};

    ghost from_gives = { λ fault told. told ≡ fault_of fault };

    fn from(fault: MofFault) -> FileFault {
        match fault {
            MofFault::NotJson { place } => unread(FaultKind::NotJson, place),
            MofFault::Shape { place } => unread(FaultKind::Shape, place),
            MofFault::Version { place } => unread(FaultKind::Version, place),
            MofFault::UnknownKind { place } => unread(FaultKind::UnknownKind, place),
            MofFault::BadNumber { place } => unread(FaultKind::BadNumber, place),
            MofFault::DuplicateName { place } => unread(FaultKind::DuplicateName, place),
            MofFault::UnknownName { place } => unread(FaultKind::UnknownName, place),
            MofFault::Dimension { place } => unread(FaultKind::Dimension, place),
            MofFault::Memory => FileFault::Memory,
        }
    }
}

fn unread(kind: FaultKind, place: Text) -> FileFault
    ensures { result ≡ FileFault.Unread kind place }
{
    FileFault::Unread { kind, place }
}
