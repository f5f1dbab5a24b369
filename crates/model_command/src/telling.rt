//! Why there is no answer of a solver, as it is printed.
ghost use Rattle.std.specs.Prelude.{◌≡◌, ◌≢◌, IfOk, OnOk};
ghost use Rattle.model_command.specs.Telling.{attach_fault_answer, optimize_fault_answer};

use cache_layer::{AttachFault, OptFault};
use lists::Memory;
use report_core::{Answer, Refused, refusal};
use std::alloc::Global;

/// Why no solver is attached, as it is answered.
pub fn tell_attach(alloc: Global, fault: AttachFault) -> Result<Answer, Memory>
    ensures told { IfOk result (λ answer. answer ≡ attach_fault_answer fault) }
    ensures memory { OnOk result (fault ≢ AttachFault.Memory) }
{
    match fault {
        AttachFault::AlreadyAttached => refusal(alloc, &Refused::AlreadyAttached),
        AttachFault::Unsupported { kind } => refusal(alloc, &Refused::Unsupported { kind }),
        AttachFault::Overflow { place } => refusal(alloc, &Refused::Overflow { place }),
        AttachFault::Memory => Err(Memory),
    }
}

/// Why there is no certificate, as it is answered.
pub fn tell_optimize(alloc: Global, fault: OptFault) -> Result<Answer, Memory>
    ensures told { IfOk result (λ answer. answer ≡ optimize_fault_answer fault) }
    ensures memory { OnOk result (fault ≢ OptFault.Memory) }
{
    match fault {
        OptFault::NotAttached => refusal(alloc, &Refused::NotAttached),
        OptFault::TooLarge { cells } => refusal(alloc, &Refused::TooLarge { cells }),
        OptFault::Overflow { place } => refusal(alloc, &Refused::Overflow { place }),
        OptFault::Limit { pivots } => refusal(alloc, &Refused::Limit { pivots }),
        OptFault::Memory => Err(Memory),
    }
}
