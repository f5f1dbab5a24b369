//! A source in memory that never fails.
ghost use Rattle.std.specs.Prelude.{◌≡◌, ℕ, ◌≤◌, List, Some, length, take, drop, min, Ok, IfOk};
ghost use Rattle.io_face.specs.Source.{Takes};

use super::source::{Failed, Source};
use std::marker::Model;

/// Gives its bytes, as many as fit at each read. Contracts see the bytes left.
#[derive(Drop)]
pub struct SureSource {
    bytes: Vec<u8>,
    taken: usize,
}

impl Model for SureSource {
    ghost Value = { List ℕ };

    ghost view = { λ s. drop s.taken s.bytes.items };

    ghost invariant = { λ s. s.taken ≤ length s.bytes.items };
}

impl SureSource {
    pub fn new(bytes: Vec<u8>) -> SureSource
        ensures { result ≡ bytes.items }
    {
        SureSource { bytes, taken: 0 }
    }
}

impl Source for SureSource {
    ghost left = { λ s. Some s };

    ghost faults = { λ _. 0 };

    fn read(&mut self, into: &mut [u8]) -> Result<usize, Failed>
        ensures taken { IfOk result (λ n. Takes (Some self.old) (Some self.new) (take n into.new)) }

        // It gives as much as there is and fits.
        ensures sure { result ≡ Ok (min (length into.old) (length self.old)) }
        ensures rest { self.new ≡ drop (length into.old) self.old }
        ensures front { take (length self.old) into.new ≡ take (length into.old) self.old }
    {
        let count = into.len().min(self.bytes.len() - self.taken);
        let end = self.taken + count;
        into[..count].copy_from_slice(&self.bytes[self.taken..end]);
        self.taken = end;
        Ok(count)
    }

    fn faults(&self) -> u64 {
        0
    }
}
