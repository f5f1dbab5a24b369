//! Readers and writers of the system.
ghost use Rattle.std.specs.Prelude.{◌≡◌, ◌≤◌};
ghost use Rattle.io_face.specs.Fault.{next_count};

use std::marker::Model;

/// A reader or a writer of the system, with a count of its calls that failed. It tells nothing of
/// its bytes.
#[derive(Drop)]
pub struct Adapter<R> {
    pub(crate) inner: R,
    pub(crate) faults: u64,
}

impl<R> Model for Adapter<R> {
    ghost use Rattle.io_face.specs.Adapter.{Adapter};

    ghost Value = { Adapter R };

    ghost view = { λ s. record { inner = s.inner; faults = s.faults } };
}

impl<R> Adapter<R> {
    pub fn new(inner: R) -> Adapter<R>
        ensures { result ≡ record { inner = inner; faults = 0 } }
    {
        Adapter { inner, faults: 0 }
    }

    pub(crate) fn count_fault(&mut self)
        ensures after { self.new ≡ record self.old { faults = next_count self.old.faults } }
        ensures count { self.old.faults ≤ self.new.faults }
    {
        self.faults = self.faults.saturating_add(1);
    }
}
