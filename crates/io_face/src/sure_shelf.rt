//! A shelf in memory on which each fetch of a file that is there goes well.
ghost use Rattle.std.specs.Prelude.{◌≡◌, ◌≤◌, ◌↔◌, ◌≢◌, [], true, Some, Ok, Err, length, OnOk, OnErr, IsErrOf};
ghost use Rattle.io_face.specs.Fault.{HasFaulted};
ghost use Rattle.io_face.specs.Shelf.{fetched, file_limit};
ghost use Rattle.io_face.specs.MemShelf.{with_fault};

use super::named_file::copy_file;
use super::shelf::{FetchFault, Shelf};
use crate::NamedFiles;
use std::marker::Model;

/// Gives its files, and fails only where there is none of the name. Contracts see the files by
/// their names, and how many fetches failed.
#[derive(Drop)]
pub struct SureShelf {
    files: NamedFiles,
    faults: u64,
}

impl Model for SureShelf {
    ghost use Rattle.io_face.specs.MemShelf.{Archive, archive_code};
    ghost use Rattle.io_face.specs.NamedFile.{by_name};

    ghost Value = { Archive };

    ghost coded = { archive_code };

    ghost view = { λ s. record { files = by_name s.files; faults = s.faults } };
}

impl SureShelf {
    ghost use Rattle.io_face.specs.NamedFile.{by_name};

    /// Of files with one name it has the first.
    pub fn new(files: NamedFiles) -> SureShelf
        ensures { result ≡ record { files = by_name files; faults = 0 } }
    {
        SureShelf { files, faults: 0 }
    }
}

impl Shelf for SureShelf {
    ghost files = { λ s. Some s.files };

    ghost sure = { λ _. true };

    ghost faults = { λ s. s.faults };

    fn fetch(&mut self, name: &str, into: &mut Vec<u8>) -> Result<(), FetchFault>
        requires empty { into.old.items ≡ [] }
        // As for any shelf.
        ensures kept { self.new.files ≡ self.old.files }
        ensures within { length into.new.items ≤ file_limit }
        ensures count { self.old.faults ≤ self.new.faults }
        ensures cause { IsErrOf result FetchFault.Failed
            → HasFaulted self.old.faults self.new.faults }

        // It answers what the files say, unless memory runs out.
        ensures ok { OnOk result (fetched self.old.files name.now ≡ Ok into.new.items) }
        ensures failed { IsErrOf result FetchFault.Failed
            ↔ (fetched self.old.files name.now ≡ Err FetchFault.Failed) }
        ensures too_long { IsErrOf result FetchFault.TooLong
            ↔ (fetched self.old.files name.now ≡ Err FetchFault.TooLong) }
        ensures nothing { OnErr result (into.new.items ≡ []) }
        ensures counted { IsErrOf result FetchFault.Failed → self.new ≡ with_fault self.old }
        ensures unchanged { result ≢ Err FetchFault.Failed → self.new ≡ self.old }
    {
        let fetched = copy_file(self.files.as_slice(), name, into);
        if fetched == Err(FetchFault::Failed) {
            self.faults = self.faults.saturating_add(1);
        }
        fetched
    }

    fn faults(&self) -> u64 {
        self.faults
    }

    ghost use Rattle.std.proofs.Common.{rules};

    ghost sure_tells = { λ s _. Prim.search rules };
}
