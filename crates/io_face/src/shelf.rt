//! Where a program gets files from.
ghost use Rattle.std.specs.Prelude.{◌≡◌, ◌≢◌, ℕ, ◌≤◌, Bool, List, [], ◌∷◌, Ok, Err, Option, None, IsSome, IsTrue, OnOk, OnErr, IsErrOf, length};
ghost use Rattle.io_face.specs.Fault.{HasFaulted};
ghost use Rattle.io_face.specs.Shelf.{AsksFor, FilesByName, Gives, GivesFront, file_limit};
ghost use Rattle.io_face.specs.declared.shelf.FetchFault.TheVariants.{Failed, Memory};

use crate::source::Failed;
use std::alloc::AllocError;
use thiserror::Error;

/// The most bytes of a file that is fetched.
pub const FILE_LIMIT: usize = 67_108_864;

/// A file wasn't fetched.
#[derive(Clone, Copy, Debug, PartialEq, Eq, Error)]
pub enum FetchFault {
    /// There is no such file, or reading it failed.
    #[error("fetching a file failed")]
    Failed,
    /// The file has more than 67,108,864 bytes.
    #[error("a file has at most {} bytes", FILE_LIMIT)]
    TooLong,
    #[error("out of memory")]
    Memory,
}

impl From<AllocError> for FetchFault {
    ghost from_gives = { λ _ fault. fault ≡ Memory };

    fn from(_error: AllocError) -> FetchFault {
        FetchFault::Memory
    }
}

impl From<Failed> for FetchFault {
    ghost from_gives = { λ _ fault. fault ≡ Failed };

    fn from(_fault: Failed) -> FetchFault {
        FetchFault::Failed
    }
}

/// Where files are fetched from by their names. No call changes them. A fetch that fails is
/// counted, and each is noted with its name, unless memory ran out.
pub trait Shelf {
    /// The files, where the shelf tells them.
    ghost files: { Self → Option FilesByName };

    /// Whether a fetch fails only where there is no file of the name. Such a shelf tells its files.
    ghost sure: { Self → Bool };

    /// The names of the files that were asked for so far, where the shelf tells them.
    ghost asked: { Self → Option (List (List ℕ)) } = { λ _. None };

    /// The count that `faults` gives.
    ghost faults: { Self → ℕ };

    /// Puts the whole file of this name into `into`, which is empty. After a fault a beginning of
    /// the file may stand there.
    fn fetch(&mut self, name: &str, into: &mut Vec<u8>) -> Result<(), FetchFault>
        requires empty { into.old.items ≡ [] }
        ensures kept { files self.new ≡ files self.old }
        ensures kept_sure { sure self.new ≡ sure self.old }
        ensures ok { OnOk result (Gives (files self.old) name.now (Ok into.new.items)) }
        ensures within { length into.new.items ≤ file_limit }
        ensures front { OnErr result (GivesFront (files self.old) name.now into.new.items) }
        ensures too_long { IsErrOf result FetchFault.TooLong
            → Gives (files self.old) name.now (Err FetchFault.TooLong) }
        ensures missing { IsErrOf result FetchFault.Failed → IsTrue (sure self.old)
            → Gives (files self.old) name.now (Err FetchFault.Failed) }
        ensures count { faults self.old ≤ faults self.new }
        ensures cause { IsErrOf result FetchFault.Failed
            → HasFaulted (faults self.old) (faults self.new) }
        ensures sound { result ≢ Err FetchFault.Failed → faults self.new ≡ faults self.old }
        ensures asks { result ≢ Err FetchFault.Memory
            → AsksFor (asked self.old) (asked self.new) (name.now ∷ []) };

    /// How many fetches failed; `u64::MAX` stands for more too.
    fn faults(&self) -> u64
        ensures { result ≡ faults self.now };

    ghost sure_tells: { (s : Self) → IsTrue (sure s) → IsSome (files s) };
}
