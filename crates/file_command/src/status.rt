//! How a run ends.
ghost use Rattle.std.specs.Prelude.{◌≡◌};
ghost use Rattle.file_command.specs.Status.{exit_number};

/// How a run ended.
#[derive(Clone, Copy, Debug, PartialEq, Eq)]
pub enum Status {
    /// The answer was written, and it is no refusal.
    Done = 0,
    /// The answer was written, and it is a refusal.
    SomeRefused = 1,
    /// The arguments are of no command.
    Usage = 2,
    /// A file couldn't be fetched.
    ReadFault = 3,
    WriteFault = 4,
    /// Memory ran out.
    Memory = 5,
    /// A file is too long.
    TooLong = 6,
}

impl Status {
    /// The exit status of the program.
    pub fn number(self) -> u8
        ensures { result ≡ exit_number self }
    {
        self as u8
    }
}
