//! What a program writes to.
ghost use Rattle.std.specs.Prelude.{◌≡◌, ℕ, ◌<◌, ◌≤◌, List, Option, length, take, IfOk, OnOk, OnErr, IsErrOf};
ghost use Rattle.io_face.specs.Fault.{HasFaulted};
ghost use Rattle.io_face.specs.Sink.{Adds, AddsPrefix};
ghost use Rattle.io_face.specs.declared.sink.SinkFault.TheVariants.{Memory};

use std::alloc::AllocError;
use thiserror::Error;

/// A write failed, or found no memory, and took nothing.
#[derive(Clone, Copy, Debug, PartialEq, Eq, Error)]
pub enum SinkFault {
    #[error("writing failed")]
    Failed,
    #[error("out of memory")]
    Memory,
}

impl From<AllocError> for SinkFault {
    ghost from_gives = { λ _ fault. fault ≡ Memory };

    fn from(_error: AllocError) -> SinkFault {
        SinkFault::Memory
    }
}

/// What bytes are written to. A write that fails takes none, and is counted unless memory ran out.
pub trait Sink {
    /// The bytes written so far, where the sink tells them.
    ghost written: { Self → Option (List ℕ) };

    /// The count that `faults` gives.
    ghost faults: { Self → ℕ };

    /// Takes bytes from the front of `piece`, at least one where there is one, and returns how
    /// many.
    fn write(&mut self, piece: &[u8]) -> Result<usize, SinkFault>
        ensures within { IfOk result (λ n. n ≤ length piece.now) }
        ensures progress { IfOk result (λ n. 0 < length piece.now → 0 < n) }
        ensures added { IfOk result (λ n. Adds (written self.old) (written self.new)
            (take n piece.now)) }
        ensures failed { OnErr result (written self.new ≡ written self.old) }
        ensures count { faults self.old ≤ faults self.new }
        ensures cause { IsErrOf result SinkFault.Failed
            → HasFaulted (faults self.old) (faults self.new) }
        ensures sound { OnOk result (faults self.new ≡ faults self.old) };

    /// How many writes failed for another cause than memory; `u64::MAX` stands for more too.
    fn faults(&self) -> u64
        ensures { result ≡ faults self.now };
}

/// Writes piece after piece until the sink has the whole text. At a fault it has a prefix of it.
pub fn write_all<O: Sink>(output: &mut O, text: &[u8]) -> Result<(), SinkFault>
    ensures ok { OnOk result (Adds (O.written output.old) (O.written output.new) text.now) }
    ensures err { OnErr result (AddsPrefix (O.written output.old) (O.written output.new) text.now) }
    ensures count { O.faults output.old ≤ O.faults output.new }
    ensures cause { IsErrOf result SinkFault.Failed
        → HasFaulted (O.faults output.old) (O.faults output.new) }
    ensures sound { OnOk result (O.faults output.new ≡ O.faults output.old) }
{
    let mut done = 0;
    while done < text.len() {
        done += output.write(&text[done..])?;
    }
    Ok(())
}
