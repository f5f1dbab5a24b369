//! Why an answer isn't carried back.
ghost use Rattle.std.specs.Prelude.{◌≡◌};
ghost use Rattle.adjoint_core.specs.Told.{told_at};
ghost use Rattle.adjoint_core.specs.declared.fault.BackFault.TheVariants as fault;

use aff_core::Address;
use ratio_core::{Memory, NumberFault};
use std::alloc::{AllocError, AllocFailed};
use thiserror::Error;

/// Why there is no certificate.
#[derive(Clone, Copy, Debug, PartialEq, Eq, Error)]
pub enum BackFault {
    /// A product or a sum at a variable, a row, a group or the objective of the user's, or at a row
    /// below one, doesn't fit.
    #[error("a number carried back passes 128 bits")]
    Overflow { at: Address },
    /// Memory ran out.
    #[error("{}", Memory)]
    Memory,
}

impl BackFault {
    // The fault of a check or a sum, at an address.
    pub(crate) fn of_number(at: &Address, fault: NumberFault) -> BackFault
        ensures { result ≡ told_at at.now fault }
    {
        match fault {
            NumberFault::Overflow => BackFault::Overflow { at: *at },
            NumberFault::Memory => BackFault::Memory,
        }
    }
}

impl From<Memory> for BackFault {
    ghost from_gives = { λ _ result. result ≡ fault.Memory };

    fn from(_fault: Memory) -> BackFault {
        BackFault::Memory
    }
}

impl From<AllocError> for BackFault {
    ghost from_gives = { λ _ result. result ≡ fault.Memory };

    fn from(_fault: AllocError) -> BackFault {
        BackFault::Memory
    }
}

impl<T: Drop> From<AllocFailed<T>> for BackFault {
    ghost from_gives = { λ _ result. result ≡ fault.Memory };

    fn from(_fault: AllocFailed<T>) -> BackFault {
        BackFault::Memory
    }
}
