//! What a program reads from.
ghost use Rattle.std.specs.Prelude.{◌≡◌, ℕ, ◌<◌, ◌≤◌, List, Option, length, take, IfOk, OnOk, OnErr};
ghost use Rattle.std.specs.Io.KnownBytes.{IsAtEnd};
ghost use Rattle.io_face.specs.Fault.{HasFaulted};
ghost use Rattle.io_face.specs.Source.{Takes};

use thiserror::Error;

/// A read failed, and took nothing.
#[derive(Clone, Copy, Debug, PartialEq, Eq, Error)]
#[error("reading failed")]
pub struct Failed;

/// What bytes are read from. A read that fails takes none, and is counted, and no other is.
pub trait Source {
    /// The bytes that reads are still to give, where the source tells them.
    ghost left: { Self → Option (List ℕ) };

    /// The count that `faults` gives.
    ghost faults: { Self → ℕ };

    /// Takes bytes from the front of those left, puts them at the front of `into` and returns how
    /// many. Zero into a buffer that isn't empty is the end of the input.
    fn read(&mut self, into: &mut [u8]) -> Result<usize, Failed>
        ensures within { IfOk result (λ n. n ≤ length into.old) }
        ensures taken { IfOk result (λ n. Takes (left self.old) (left self.new) (take n into.new)) }
        ensures end { IfOk result (λ n. n ≡ 0 → 0 < length into.old → IsAtEnd (left self.old)) }
        ensures failed { OnErr result (left self.new ≡ left self.old) }
        ensures count { faults self.old ≤ faults self.new }
        ensures cause { OnErr result (HasFaulted (faults self.old) (faults self.new)) }
        ensures sound { OnOk result (faults self.new ≡ faults self.old) };

    /// How many reads failed; `u64::MAX` stands for more too.
    fn faults(&self) -> u64
        ensures { result ≡ faults self.now };
}
