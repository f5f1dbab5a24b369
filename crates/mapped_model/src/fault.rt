//! Why a model's rows are not mapped.
ghost use Rattle.std.specs.Prelude.{◌≡◌};
ghost use Rattle.mapped_model.specs.declared.fault.MappingFault.TheVariants as fault;

use lists::Memory;
use name_index::{Name, Text};
use std::alloc::AllocError;
use thiserror::Error;
use user_model::Refusal;

/// Why a model's rows are not mapped, or a certificate is not taken back.
#[derive(Debug, Drop, Error)]
pub enum MappingFault {
    /// 25: this line of the maps, counted from 1, is the first wrong one.
    #[error("a line of the maps is wrong")]
    BadMaps { line: u32 },
    /// 24: the map of this name is the first whose matrices are not inverse to each other, or whose
    /// products exceed 128 bits.
    #[error("the matrices of a map are not inverse to each other")]
    BadMap { map: Text },
    /// 5 or 12: the model with a mapped row is refused.
    #[error("a mapped row is refused")]
    Refused(Refusal),
    /// 17: a number of this row exceeds 128 bits.
    #[error("a number of a mapped row exceeds 128 bits")]
    Overflow { row: Name },
    /// Memory ran out.
    #[error("{}", Memory)]
    Memory,
}

impl From<Memory> for MappingFault {
    ghost from_gives = { λ _ told. told ≡ fault.Memory };

    fn from(_fault: Memory) -> MappingFault {
        MappingFault::Memory
    }
}

impl From<AllocError> for MappingFault {
    ghost from_gives = { λ _ told. told ≡ fault.Memory };

    fn from(_fault: AllocError) -> MappingFault {
        MappingFault::Memory
    }
}
