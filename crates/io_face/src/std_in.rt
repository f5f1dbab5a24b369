//! Standard input as a source.
ghost use Rattle.std.specs.Prelude.{◌≡◌, ◌≤◌, None, length, IfOk, OnOk, OnErr};
ghost use Rattle.std.specs.Io.KnownBytes.{ReadConsumes};
ghost use Rattle.io_face.specs.Fault.{next_count};

use super::adapter::Adapter;
use super::retry::read_retrying;
use super::source::{Failed, Source};
use std::io::Read;

/// A reader of the system, as `rt.stdin()`.
pub type StdIn<R> = Adapter<R>;

impl<R: Read> Source for Adapter<R> {
    ghost left = { λ _. None };

    ghost faults = { λ s. s.faults };

    fn read(&mut self, into: &mut [u8]) -> Result<usize, Failed>
        // As for any source.
        ensures within { IfOk result (λ n. n ≤ length into.old) }
        ensures count { self.old.faults ≤ self.new.faults }

        // Over a reader that tells its bytes, none is lost.
        ensures bytes { ReadConsumes (R.remaining self.old.inner)
            (R.remaining self.new.inner) result into.new }
        ensures no_fault { OnOk result (self.new.faults ≡ self.old.faults) }
        ensures fault { OnErr result (self.new.faults ≡ next_count self.old.faults) }
    {
        match read_retrying(&mut self.inner, into) {
            Ok(count) => Ok(count),
            Err(_) => {
                self.count_fault();
                Err(Failed)
            }
        }
    }

    fn faults(&self) -> u64 {
        self.faults
    }
}
