//! What is answered where a call is refused, and where the edits of a file weren't read.
#![tactic(auto)]

ghost use Rattle.std.specs.Prelude.{◌≡◌, IfOk, IsErr, IsSome, Ok, OnOk};
ghost use Rattle.file_answers.specs.FileAnswers.{fault_answer, refusal_answer};

use lists::Memory;
use mof_fetch::FileFault;
use report_core::{Answer, Refused, refusal};
use std::alloc::Global;

/// Why no edits were read of a file, as it is answered.
pub fn tell_fault(alloc: Global, fault: FileFault) -> Result<Answer, Memory>
    ensures answer { IfOk result (λ answer. answer ≡ fault_answer fault) }
    ensures failed { fault ≡ FileFault.Failed → result ≡ Ok Answer.ReadFault }
    ensures memory { fault ≡ FileFault.Memory → IsErr result }
{
    match fault {
        FileFault::Failed => Ok(Answer::ReadFault),
        FileFault::TooLong => Ok(Answer::TooLong),
        FileFault::Unread { kind, place } => refusal(alloc, &Refused::File { kind, place }),
        FileFault::Memory => Err(Memory),
    }
}

/// The answer to a call that is refused; where there is no refusal, memory ran out. A refusal is
/// freed here alone, whatever fault it reports.
pub fn tell_refusal(alloc: Global, refused: Option<Refused>) -> Result<Answer, Memory>
    ensures answer { IfOk result (λ answer. answer ≡ refusal_answer refused) }
    ensures told { OnOk result (IsSome refused) }
{
    match refused {
        Some(refused) => refusal(alloc, &refused),
        None => Err(Memory),
    }
}
