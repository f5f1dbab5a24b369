//! A sink that never has memory.
ghost use Rattle.std.specs.Prelude.{[], Some};

use io_face::{Sink, SinkFault};

/// Whose every write runs out of memory.
#[derive(Drop)]
pub struct Full;

impl Sink for Full {
    ghost written = { λ _. Some [] };

    ghost faults = { λ _. 0 };

    fn write(&mut self, _piece: &[u8]) -> Result<usize, SinkFault> {
        Err(SinkFault::Memory)
    }

    fn faults(&self) -> u64 {
        0
    }
}
