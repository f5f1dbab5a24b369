//! Fetching and reading a file.
ghost use Rattle.std.specs.Prelude.{◌≡◌, ◌≢◌, ◌≤◌, [], ◌∷◌, Err, IsErrOf};
ghost use Rattle.io_face.specs.Fault.{HasFaulted};
ghost use Rattle.io_face.specs.Shelf.{AsksFor};
ghost use Rattle.io_face.specs.Told.{told_by};
ghost use Rattle.mof_fetch.specs.Fetched.{IsReadOf, walked};
ghost use Rattle.mof_read.specs.Edits.{edits_in};

use crate::FileFault;
use io_face::{FetchFault, Shelf};
use mof_read::{Edits, read};
use name_index::Name;
use std::alloc::Global;

/// Fetches the file of a name, once and no other, and reads the edits that make its model from an
/// empty one. The file's bytes are freed before it returns.
pub fn fetch_edits<H: Shelf>(alloc: Global, shelf: &mut H, name: &Name) -> Result<Edits, FileFault>
    ensures read { IsReadOf (told_by (H.files shelf.old) (H.sure shelf.old)) name.now result }
    ensures files { H.files shelf.new ≡ H.files shelf.old }
    ensures sure { H.sure shelf.new ≡ H.sure shelf.old }
    ensures count { H.faults shelf.old ≤ H.faults shelf.new }
    ensures cause { IsErrOf result FileFault.Failed
        → HasFaulted (H.faults shelf.old) (H.faults shelf.new) }
    ensures sound { result ≢ Err FileFault.Failed → H.faults shelf.new ≡ H.faults shelf.old }
    ensures asks { result ≢ Err FileFault.Memory
        → AsksFor (H.asked shelf.old) (H.asked shelf.new) (name.now ∷ []) }
{
    let mut bytes = Vec::new(alloc);
    match shelf.fetch(name.text(), &mut bytes) {
        Ok(()) => read_edits(alloc, &bytes),
        Err(FetchFault::Failed) => Err(FileFault::Failed),
        Err(FetchFault::TooLong) => Err(FileFault::TooLong),
        Err(FetchFault::Memory) => Err(FileFault::Memory),
    }
}

// The edits of a file, or its fault.
fn read_edits(alloc: Global, bytes: &[u8]) -> Result<Edits, FileFault>
    ensures read { result ≢ Err FileFault.Memory → result ≡ walked (edits_in bytes.now) }
    ensures not_failed { result ≢ Err FileFault.Failed }
{
    match read(alloc, bytes) {
        Ok(edits) => Ok(edits),
        Err(fault) => Err(FileFault::from(fault)),
    }
}
