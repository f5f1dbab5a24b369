//! How a run ends, by its answer.
ghost use Rattle.std.specs.Prelude.{◌≡◌, ◌≢◌, ◌≤◌};
ghost use Rattle.io_face.specs.Fault.{HasFaulted};
ghost use Rattle.file_command.specs.Ending.{EndsText, EndsWith, IsThis};
ghost use Rattle.file_command.specs.Status.{IsAnswerWritten};

use crate::status::Status;
use io_face::{Sink, SinkFault, write_all};
use report_core::Answer;

/// Writes what an answer prints, and says how the run ends.
pub fn end_with<O: Sink>(answer: Answer, output: &mut O) -> Status
    ensures ends { EndsWith (IsThis answer) result (O.written output.old) (O.written output.new) }
    ensures write_fault { result ≡ Status.WriteFault
        → HasFaulted (O.faults output.old) (O.faults output.new) }
    ensures count { O.faults output.old ≤ O.faults output.new }
    ensures sound { IsAnswerWritten result → O.faults output.new ≡ O.faults output.old }
{
    match answer {
        Answer::Printed(text) => write_text(text.as_slice(), Status::Done, output),
        Answer::Refused(text) => write_text(text.as_slice(), Status::SomeRefused, output),
        Answer::Silent | Answer::Quit => Status::Done,
        Answer::ReadFault => Status::ReadFault,
        Answer::TooLong => Status::TooLong,
        Answer::Memory => Status::Memory,
    }
}

// Writes a text, after which the run ends so.
fn write_text<O: Sink>(text: &[u8], ended: Status, output: &mut O) -> Status
    requires { IsAnswerWritten ended }
    ensures ends { EndsText text.now ended result (O.written output.old) (O.written output.new) }
    ensures write_fault { result ≡ Status.WriteFault
        → HasFaulted (O.faults output.old) (O.faults output.new) }
    ensures count { O.faults output.old ≤ O.faults output.new }
    ensures sound { IsAnswerWritten result → O.faults output.new ≡ O.faults output.old }
{
    match write_all(output, text) {
        Ok(()) => ended,
        Err(SinkFault::Failed) => Status::WriteFault,
        Err(SinkFault::Memory) => Status::Memory,
    }
}
