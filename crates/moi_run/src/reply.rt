//! What an answer prints, written whole.
ghost use Rattle.std.specs.Prelude.{◌≡◌, ◌≤◌, IsErrOf, OnOk};
ghost use Rattle.io_face.specs.Fault.{HasFaulted};
ghost use Rattle.moi_run.specs.Answering.{WritesBy, is_refused};

use crate::stop::RunStop;
use edit_engine::Answer;
use io_face::{Sink, write_all};

/// What an answer that was written was.
#[derive(Clone, Copy, Debug, PartialEq, Eq)]
pub(crate) enum Reply {
    Accepted,
    Refused,
    Quit,
}

impl Reply {
    pub(crate) fn is_refused(self) -> bool
        ensures { result ≡ is_refused self }
    {
        match self {
            Reply::Refused => true,
            Reply::Accepted | Reply::Quit => false,
        }
    }
}

/// Writes what an answer prints. The answers that stop the work print nothing.
pub(crate) fn write_answer<O: Sink>(answer: Answer, output: &mut O) -> Result<Reply, RunStop>
    ensures written { WritesBy result answer (O.written output.old) (O.written output.new) }
    ensures cause { IsErrOf result RunStop.WriteFault
        → HasFaulted (O.faults output.old) (O.faults output.new) }
    ensures count { O.faults output.old ≤ O.faults output.new }
    ensures sound { OnOk result (O.faults output.new ≡ O.faults output.old) }
{
    match answer {
        Answer::Silent => Ok(Reply::Accepted),
        Answer::Printed(text) => match write_all(output, text.as_slice()) {
            Ok(()) => Ok(Reply::Accepted),
            Err(fault) => Err(RunStop::from(fault)),
        },
        Answer::Refused(text) => match write_all(output, text.as_slice()) {
            Ok(()) => Ok(Reply::Refused),
            Err(fault) => Err(RunStop::from(fault)),
        },
        Answer::Quit => Ok(Reply::Quit),
        Answer::ReadFault => Err(RunStop::ReadFault),
        Answer::TooLong => Err(RunStop::TooLong),
        Answer::Memory => Err(RunStop::Memory),
    }
}
