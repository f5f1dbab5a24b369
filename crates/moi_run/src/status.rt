//! How a run ends.
ghost use Rattle.std.specs.Prelude.{◌≡◌, if◌then◌else◌};
ghost use Rattle.moi_run.specs.Status.{exit_number, status_of};

use crate::stop::RunStop;

/// How a run ended.
#[derive(Clone, Copy, Debug, PartialEq, Eq)]
pub enum Status {
    /// The work ended, and no line was refused.
    Done = 0,
    /// The work ended, and at least one line was refused.
    SomeRefused = 1,
    /// The words are of no command.
    Usage = 2,
    ReadFault = 3,
    WriteFault = 4,
    /// Memory ran out.
    Memory = 5,
    /// A line, the input or a file is too long.
    TooLong = 6,
}

impl Status {
    /// The exit status of the program.
    pub fn number(self) -> u8
        ensures { result ≡ exit_number self }
    {
        self as u8
    }

    // How the work ended, by whether a line was refused.
    pub(crate) fn ended(any_refused: bool) -> Status
        ensures { result ≡ (if any_refused then Status.SomeRefused else Status.Done) }
    {
        if any_refused {
            Status::SomeRefused
        } else {
            Status::Done
        }
    }
}

impl From<RunStop> for Status {
    ghost from_gives = { λ stop status. status ≡ status_of stop };

    fn from(stop: RunStop) -> Status {
        match stop {
            RunStop::ReadFault => Status::ReadFault,
            RunStop::WriteFault => Status::WriteFault,
            RunStop::Memory => Status::Memory,
            RunStop::TooLong => Status::TooLong,
        }
    }
}
