//! Why a small form has no answer.
ghost use Rattle.std.specs.Prelude.{◌≡◌};
ghost use Rattle.bland_run.specs.declared.fault.SmallFault.TheVariants as fault;

use lists::Memory;
use simplex_core::Basis;
use thiserror::Error;

/// Why a small form has no answer.
#[derive(Debug, Drop, Error)]
pub enum SmallFault {
    /// A number of the first board, or of the step after this basis, passes 128 bits.
    #[error("a number of the board passes 128 bits")]
    Overflow { basis: Basis },
    /// Memory ran out.
    #[error("{}", Memory)]
    Memory,
}

impl From<Memory> for SmallFault {
    ghost from_gives = { λ _ result. result ≡ fault.Memory };

    fn from(_fault: Memory) -> SmallFault {
        SmallFault::Memory
    }
}
