//! Why the work stops before its end.
ghost use Rattle.std.specs.Prelude.{◌≡◌};
ghost use Rattle.moi_run.specs.Status.{stop_of_read, stop_of_sink};

use io_face::SinkFault;
use line_reader::ReadStop;

/// Why the work stops before its end.
#[derive(Clone, Copy, Debug, PartialEq, Eq)]
pub enum RunStop {
    ReadFault,
    WriteFault,
    /// Memory ran out.
    Memory,
    /// A line, the input or a file is too long.
    TooLong,
}

impl From<ReadStop> for RunStop {
    ghost from_gives = { λ reason stop. stop ≡ stop_of_read reason };

    fn from(reason: ReadStop) -> RunStop {
        match reason {
            ReadStop::ReadFault => RunStop::ReadFault,
            ReadStop::TooLong => RunStop::TooLong,
            ReadStop::Memory => RunStop::Memory,
        }
    }
}

impl From<SinkFault> for RunStop {
    ghost from_gives = { λ fault stop. stop ≡ stop_of_sink fault };

    fn from(fault: SinkFault) -> RunStop {
        match fault {
            SinkFault::Failed => RunStop::WriteFault,
            SinkFault::Memory => RunStop::Memory,
        }
    }
}
