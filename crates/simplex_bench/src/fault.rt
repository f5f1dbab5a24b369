// Why the benchmark ends early.
use lists::Memory;
use ratio_core::RatioFault;
use std::alloc::{AllocError, AllocFailed};
use thiserror::Error;

#[derive(Clone, Copy, Debug, Error)]
pub enum BenchFault {
    #[error("{}", Memory)]
    Memory,
    #[error("a drawn number is none of the form's")]
    Number,
}

impl From<Memory> for BenchFault {
    fn from(_fault: Memory) -> BenchFault {
        BenchFault::Memory
    }
}

impl From<AllocError> for BenchFault {
    fn from(_fault: AllocError) -> BenchFault {
        BenchFault::Memory
    }
}

impl<T: Drop> From<AllocFailed<T>> for BenchFault {
    fn from(_fault: AllocFailed<T>) -> BenchFault {
        BenchFault::Memory
    }
}

impl From<RatioFault> for BenchFault {
    fn from(_fault: RatioFault) -> BenchFault {
        BenchFault::Number
    }
}
