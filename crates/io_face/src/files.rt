//! Files of the system as a shelf.
ghost use Rattle.std.specs.Prelude.{◌≡◌, ◌≤◌, ◌≢◌, [], false, None, Err, length, IsErrOf};
ghost use Rattle.io_face.specs.Fault.{next_count};
ghost use Rattle.io_face.specs.Shelf.{file_limit};

use super::adapter::Adapter;
use super::shelf::{FetchFault, Shelf};
use super::whole::read_whole;
use std::fs::File;
use std::io::ErrorKind;
use std::rt::Files as FileSystem;

/// The files of a system, as `&rt`, by their paths.
pub type Files<R> = Adapter<R>;

// Puts the bytes of a file of the system into `into`, which is empty.
fn read_file<R: FileSystem>(system: &R, name: &str, into: &mut Vec<u8>) -> Result<(), FetchFault>
    requires empty { into.old.items ≡ [] }
    ensures within { length into.new.items ≤ file_limit }
{
    match File::open(system, name) {
        Ok(file) => read_whole(&mut Adapter::new(file), into),
        Err(error) if error.kind() == ErrorKind::OutOfMemory => Err(FetchFault::Memory),
        Err(_) => Err(FetchFault::Failed),
    }
}

impl<R: FileSystem> Shelf for Adapter<R> {
    ghost files = { λ _. None };

    ghost sure = { λ _. false };

    ghost faults = { λ s. s.faults };

    fn fetch(&mut self, name: &str, into: &mut Vec<u8>) -> Result<(), FetchFault>
        requires empty { into.old.items ≡ [] }
        ensures within { length into.new.items ≤ file_limit }
        ensures count { self.old.faults ≤ self.new.faults }
        ensures fault { IsErrOf result FetchFault.Failed
            → self.new ≡ record self.old { faults = next_count self.old.faults } }
        ensures no_fault { result ≢ Err FetchFault.Failed → self.new ≡ self.old }
    {
        let fetched = read_file(&self.inner, name, into);
        if fetched == Err(FetchFault::Failed) {
            self.count_fault();
        }
        fetched
    }

    fn faults(&self) -> u64 {
        self.faults
    }

    ghost use Rattle.std.proofs.Common.{rules};

    ghost sure_tells = { λ s is_sure. Prim.search rules };
}
