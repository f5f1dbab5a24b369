//! A shelf in memory that fails at chosen calls.
ghost use Rattle.std.specs.Prelude.{◌≡◌, ◌≤◌, ◌↔◌, ◌≢◌, ◌⊎◌, [], false, Some, Ok, Err, length, OnOk, OnErr, IsErrOf};
ghost use Rattle.io_face.specs.Fault.{HasFaulted};
ghost use Rattle.io_face.specs.Plan.{IsFailing};
ghost use Rattle.io_face.specs.Shelf.{fetched, file_limit};
ghost use Rattle.io_face.specs.MemShelf.{archive_after, archive_after_failure};

use super::named_file::copy_file;
use super::schedule::Schedule;
use super::shelf::{FetchFault, Shelf};
use crate::{Calls, NamedFiles};
use std::marker::Model;

/// Gives its files, and fails where there is none of the name and at the fetches whose numbers are
/// listed, the first being 1.
#[derive(Drop)]
pub struct MemShelf {
    files: NamedFiles,
    schedule: Schedule,
}

impl Model for MemShelf {
    ghost use Rattle.io_face.specs.MemShelf.{PlannedArchive, planned_archive_code};
    ghost use Rattle.io_face.specs.NamedFile.{by_name};

    ghost Value = { PlannedArchive };

    ghost coded = { planned_archive_code };

    ghost view = { λ s. record { files = by_name s.files; plan = s.schedule } };
}

impl MemShelf {
    ghost use Rattle.io_face.specs.NamedFile.{by_name};

    /// Of files with one name it has the first.
    pub fn new(files: NamedFiles, fails: Calls) -> MemShelf
        ensures files { result.files ≡ by_name files }
        ensures plan { result.plan ≡ record { fails = fails; made = 0; faults = 0 } }
    {
        MemShelf {
            files,
            schedule: Schedule::new(fails),
        }
    }
}

impl Shelf for MemShelf {
    ghost files = { λ s. Some s.files };

    ghost sure = { λ _. false };

    ghost faults = { λ s. s.plan.faults };

    fn fetch(&mut self, name: &str, into: &mut Vec<u8>) -> Result<(), FetchFault>
        requires empty { into.old.items ≡ [] }
        // As for any shelf.
        ensures kept { self.new.files ≡ self.old.files }
        ensures within { length into.new.items ≤ file_limit }
        ensures count { self.old.plan.faults ≤ self.new.plan.faults }
        ensures cause { IsErrOf result FetchFault.Failed
            → HasFaulted self.old.plan.faults self.new.plan.faults }

        // It fails exactly at the listed calls and where there is no file of the name, and else
        // answers what the files say, unless memory runs out.
        ensures ok { OnOk result (fetched self.old.files name.now ≡ Ok into.new.items) }
        ensures failed { IsErrOf result FetchFault.Failed ↔ (IsFailing self.old.plan
            ⊎ (fetched self.old.files name.now ≡ Err FetchFault.Failed)) }
        ensures too_long { IsErrOf result FetchFault.TooLong
            ↔ (¬ IsFailing self.old.plan
            × (fetched self.old.files name.now ≡ Err FetchFault.TooLong)) }
        ensures nothing { OnErr result (into.new.items ≡ []) }
        ensures counted { IsErrOf result FetchFault.Failed
            → self.new ≡ archive_after_failure self.old }
        ensures uncounted { result ≢ Err FetchFault.Failed → self.new ≡ archive_after self.old }
    {
        if self.schedule.count_call() {
            return Err(FetchFault::Failed);
        }
        let fetched = copy_file(self.files.as_slice(), name, into);
        if fetched == Err(FetchFault::Failed) {
            self.schedule.count_fault();
        }
        fetched
    }

    fn faults(&self) -> u64 {
        self.schedule.faults()
    }

    ghost use Rattle.std.proofs.Common.{rules};

    ghost sure_tells = { λ s is_sure. Prim.search rules };
}
