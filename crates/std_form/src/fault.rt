//! Why there is no form.
ghost use Rattle.std.specs.Prelude.{◌≡◌};
ghost use Rattle.std_form.specs.declared.fault.FormFault.TheVariants as form;

use lists::Memory;
use ratio_core::RatioFault;
use std::alloc::{AllocError, AllocFailed};
use thiserror::Error;

/// Why a model has no equality form.
#[derive(Clone, Copy, Debug, PartialEq, Eq, Error)]
pub enum FormFault {
    /// The form would have this number of cells, capped at `u64::MAX`.
    #[error("the form has {cells} cells")]
    TooLarge { cells: u64 },
    /// A right side without its function's constant passes 128 bits.
    #[error("a right side passes 128 bits")]
    Overflow,
    /// Memory ran out.
    #[error("{}", Memory)]
    Memory,
}

impl From<RatioFault> for FormFault {
    ghost from_gives = { λ _ result. result ≡ form.Overflow };

    fn from(_fault: RatioFault) -> FormFault {
        FormFault::Overflow
    }
}

impl From<Memory> for FormFault {
    ghost from_gives = { λ _ result. result ≡ form.Memory };

    fn from(_fault: Memory) -> FormFault {
        FormFault::Memory
    }
}

impl From<AllocError> for FormFault {
    ghost from_gives = { λ _ result. result ≡ form.Memory };

    fn from(_fault: AllocError) -> FormFault {
        FormFault::Memory
    }
}

impl<T: Drop> From<AllocFailed<T>> for FormFault {
    ghost from_gives = { λ _ result. result ≡ form.Memory };

    fn from(_fault: AllocFailed<T>) -> FormFault {
        FormFault::Memory
    }
}
