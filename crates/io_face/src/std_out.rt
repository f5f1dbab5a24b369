//! Standard output as a sink.
ghost use Rattle.std.specs.Prelude.{◌≡◌, ◌<◌, ◌≤◌, None, length, IfOk, OnOk, OnErr, IsOkUnless};
ghost use Rattle.std.specs.Io.KnownBytes.{WriteAppends};
ghost use Rattle.io_face.specs.Fault.{next_count};

use super::adapter::Adapter;
use super::retry::write_retrying;
use super::sink::{Sink, SinkFault};
use std::io::Write;

/// A writer of the system, as `rt.stdout()`. A write that takes none of the bytes of a piece is a
/// fault.
pub type StdOut<W> = Adapter<W>;

impl<W: Write> Sink for Adapter<W> {
    ghost written = { λ _. None };

    ghost faults = { λ s. s.faults };

    fn write(&mut self, piece: &[u8]) -> Result<usize, SinkFault>
        // As for any sink.
        ensures within { IfOk result (λ n. n ≤ length piece.now) }
        ensures progress { IfOk result (λ n. 0 < length piece.now → 0 < n) }
        ensures count { self.old.faults ≤ self.new.faults }

        // Over a writer that tells its bytes, each is written once.
        ensures bytes { WriteAppends (W.contents self.old.inner)
            (W.contents self.new.inner) result piece.now }
        ensures no_memory { IsOkUnless result SinkFault.Failed }
        ensures no_fault { OnOk result (self.new.faults ≡ self.old.faults) }
        ensures fault { OnErr result (self.new.faults ≡ next_count self.old.faults) }
    {
        match write_retrying(&mut self.inner, piece) {
            Ok(count) if count > 0 || piece.is_empty() => Ok(count),
            _ => {
                self.count_fault();
                Err(SinkFault::Failed)
            }
        }
    }

    fn faults(&self) -> u64 {
        self.faults
    }
}
