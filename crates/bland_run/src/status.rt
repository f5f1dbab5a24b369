//! How a run ends.
ghost use Rattle.std.specs.Prelude.{◌≡◌, if◌then◌else◌};
ghost use Rattle.bland_run.specs.Status.{exit_number, status_of_read, status_of_write};

use io_face::{FetchFault, SinkFault};

/// How a run ended.
#[derive(Clone, Copy, Debug, PartialEq, Eq)]
pub enum Status {
    /// The form was answered.
    Done = 0,
    /// The text or its form was refused.
    SomeRefused = 1,
    /// There are words, and the program takes none.
    Usage = 2,
    ReadFault = 3,
    WriteFault = 4,
    /// Memory ran out.
    Memory = 5,
    /// The input is too long.
    TooLong = 6,
}

impl Status {
    /// The exit status of the program.
    pub fn number(self) -> u8
        ensures { result ≡ exit_number self }
    {
        self as u8
    }

    // How the work ended, by whether there was a refusal.
    pub(crate) fn ended(is_refused: bool) -> Status
        ensures { result ≡ (if is_refused then Status.SomeRefused else Status.Done) }
    {
        if is_refused {
            Status::SomeRefused
        } else {
            Status::Done
        }
    }
}

impl From<FetchFault> for Status {
    ghost from_gives = { λ fault status. status ≡ status_of_read fault };

    fn from(fault: FetchFault) -> Status {
        match fault {
            FetchFault::Failed => Status::ReadFault,
            FetchFault::TooLong => Status::TooLong,
            FetchFault::Memory => Status::Memory,
        }
    }
}

impl From<SinkFault> for Status {
    ghost from_gives = { λ fault status. status ≡ status_of_write fault };

    fn from(fault: SinkFault) -> Status {
        match fault {
            SinkFault::Failed => Status::WriteFault,
            SinkFault::Memory => Status::Memory,
        }
    }
}
