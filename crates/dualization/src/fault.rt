//! Why there is no dual, or a point of it isn't carried back.
ghost use Rattle.std.specs.Prelude.{◌≡◌};
ghost use Rattle.dualization.specs.declared.fault.DualFault.TheVariants as fault;
ghost use Rattle.dualization.specs.Told.{IsAtRow, IsAtVariable};

use lists::{Duplicate, Memory};
use report_core::Place;
use std::alloc::{AllocError, AllocFailed};
use thiserror::Error;
use user_model::{GroupVar, Row};

/// Why a model has no dual, or a point of it isn't carried back.
#[derive(Debug, Drop, Error)]
pub enum DualFault {
    /// 1: a product or a sum exceeds 128 bits, first at a row, or else at a variable.
    #[error("a number of the dual exceeds 128 bits")]
    Overflow { place: Place },
    /// 2: memory ran out.
    #[error("{}", Memory)]
    Memory,
}

impl From<Memory> for DualFault {
    ghost from_gives = { λ _ result. result ≡ fault.Memory };

    fn from(_fault: Memory) -> DualFault {
        DualFault::Memory
    }
}

impl From<AllocError> for DualFault {
    ghost from_gives = { λ _ result. result ≡ fault.Memory };

    fn from(_fault: AllocError) -> DualFault {
        DualFault::Memory
    }
}

impl<T: Drop> From<AllocFailed<T>> for DualFault {
    ghost from_gives = { λ _ result. result ≡ fault.Memory };

    fn from(_fault: AllocFailed<T>) -> DualFault {
        DualFault::Memory
    }
}

/// An overflow at a row.
pub(crate) fn at_row(row: &Row) -> DualFault
    ensures { IsAtRow (λ name. name ≡ row.now.name) result }
{
    match row.name.copy() {
        Ok(name) => DualFault::Overflow {
            place: Place::Row(name),
        },
        Err(_) => DualFault::Memory,
    }
}

/// An overflow at a variable.
pub(crate) fn at_variable(var: &GroupVar) -> DualFault
    ensures { IsAtVariable (λ name. name ≡ var.now.name) result }
{
    match var.name.copy() {
        Ok(name) => DualFault::Overflow {
            place: Place::Var(name),
        },
        Err(_) => DualFault::Memory,
    }
}
