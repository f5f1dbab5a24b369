// Why a call has no result.
ghost use Rattle.std.specs.Prelude.{◌≡◌};
ghost use Rattle.ratio_core.specs.declared.fault.NumberFault.TheVariants as fault;

use lists::Memory;
use std::alloc::{AllocError, AllocFailed};
use thiserror::Error;

/// Why a fraction has no value of 128 bits.
#[derive(Clone, Copy, Debug, PartialEq, Eq, Error)]
pub enum RatioFault {
    /// The denominator, or the divisor, is 0.
    #[error("the denominator is zero")]
    ZeroDenominator,
    /// A part of the result passes 2^127 - 1.
    #[error("a fraction passes 128 bits")]
    Overflow,
}

/// Why a computation with numbers has no result.
#[derive(Clone, Copy, Debug, PartialEq, Eq, Error)]
pub enum NumberFault {
    /// A number on the way passes 128 bits.
    #[error("a number passes 128 bits")]
    Overflow,
    /// Memory ran out.
    #[error("{}", Memory)]
    Memory,
}

impl From<RatioFault> for NumberFault {
    ghost from_gives = { λ _ result. result ≡ fault.Overflow };

    fn from(_fault: RatioFault) -> NumberFault {
        NumberFault::Overflow
    }
}

impl From<Memory> for NumberFault {
    ghost from_gives = { λ _ result. result ≡ fault.Memory };

    fn from(_fault: Memory) -> NumberFault {
        NumberFault::Memory
    }
}

impl From<AllocError> for NumberFault {
    ghost from_gives = { λ _ result. result ≡ fault.Memory };

    fn from(_fault: AllocError) -> NumberFault {
        NumberFault::Memory
    }
}

impl<T: Drop> From<AllocFailed<T>> for NumberFault {
    ghost from_gives = { λ _ result. result ≡ fault.Memory };

    fn from(_fault: AllocFailed<T>) -> NumberFault {
        NumberFault::Memory
    }
}
