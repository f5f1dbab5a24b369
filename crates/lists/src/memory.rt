//! The fault of running out of memory.
use std::alloc::{AllocError, AllocFailed};
use thiserror::Error;

/// Memory ran out. It is the one answer of the product that nothing but the machine decides.
#[derive(Clone, Copy, Debug, PartialEq, Eq, Error)]
#[error("out of memory")]
pub struct Memory;

impl From<AllocError> for Memory {
    fn from(_e: AllocError) -> Memory {
        Memory
    }
}

impl<T: Drop> From<AllocFailed<T>> for Memory {
    fn from(_e: AllocFailed<T>) -> Memory {
        Memory
    }
}
