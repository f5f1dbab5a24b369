//! Copies in memory of their own.
ghost use Rattle.std.specs.Prelude.{◌≡◌, IfOk};

use crate::Memory;

/// A value that an equal one can be made of, except for running out of memory.
pub trait Duplicate: Drop {
    /// An equal value in memory of its own, which the value's own allocator gives.
    fn copy(&self) -> Result<Self, Memory>
        ensures { IfOk result (λ copy. copy ≡ self.now) };
}

impl<T: Copy> Duplicate for T {
    fn copy(&self) -> Result<T, Memory> {
        Ok(*self)
    }
}
