//! Why the simplex has no answer.
ghost use Rattle.std.specs.Prelude.{◌≡◌};
ghost use Rattle.simplex_core.specs.declared.fault.SolveFault.TheVariants as fault;

use crate::answer::Basis;
use lists::Memory;
use thiserror::Error;

/// Why the simplex has no answer.
#[derive(Debug, Drop, Error)]
pub enum SolveFault {
    /// The allowance of pivots is used up before the end, at this basis.
    #[error("{pivots} pivots lead to no answer")]
    Limit { basis: Basis, pivots: u64 },
    /// A number of the first board, or of the step after this basis, passes 128 bits.
    #[error("a number of the board passes 128 bits")]
    Overflow { basis: Basis },
    /// Memory ran out.
    #[error("{}", Memory)]
    Memory,
}

impl From<Memory> for SolveFault {
    ghost from_gives = { λ _ result. result ≡ fault.Memory };

    fn from(_fault: Memory) -> SolveFault {
        SolveFault::Memory
    }
}
