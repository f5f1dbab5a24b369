//! Why two matrices make no map.
ghost use Rattle.std.specs.Prelude.{◌≡◌};
ghost use Rattle.set_map.specs.Answers.{fault_of};
ghost use Rattle.set_map.specs.declared.fault.MapFault.TheVariants as fault;

use lists::Memory;
use ratio_core::NumberFault;
use std::alloc::AllocError;
use thiserror::Error;

/// Why two matrices make no map.
#[derive(Clone, Copy, Debug, PartialEq, Eq, Error)]
pub enum MapFault {
    /// Their products are not both the unit matrix.
    #[error("the matrices are not inverse to each other")]
    NotInverse,
    /// An entry of a product exceeds 128 bits on the way.
    #[error("a product of the matrices exceeds 128 bits")]
    Overflow,
    /// Memory ran out.
    #[error("{}", Memory)]
    Memory,
}

impl From<NumberFault> for MapFault {
    ghost from_gives = { λ fault result. result ≡ fault_of fault };

    fn from(fault: NumberFault) -> MapFault {
        match fault {
            NumberFault::Overflow => MapFault::Overflow,
            NumberFault::Memory => MapFault::Memory,
        }
    }
}

impl From<Memory> for MapFault {
    ghost from_gives = { λ _ result. result ≡ fault.Memory };

    fn from(_fault: Memory) -> MapFault {
        MapFault::Memory
    }
}

impl From<AllocError> for MapFault {
    ghost from_gives = { λ _ result. result ≡ fault.Memory };

    fn from(_fault: AllocError) -> MapFault {
        MapFault::Memory
    }
}
