//! A source read whole, as far as a file may go.
ghost use Rattle.std.specs.Prelude.{◌≡◌, ◌≤◌, ◌<◌, ◌++◌, ℕ, List, [], IfOk, IfSome, length, OnOk, OnErr, IsErrOf};
ghost use Rattle.std.specs.Io.KnownBytes.{IsAtEnd};
ghost use Rattle.io_face.specs.Fault.{HasFaulted};
ghost use Rattle.io_face.specs.Shelf.{file_limit};
ghost use Rattle.io_face.specs.Source.{Takes};
ghost use Rattle.io_face.specs.Whole.{Grows};

use super::shelf::{FILE_LIMIT, FetchFault};
use super::source::Source;

// How many bytes are asked for at once.
const PIECE: usize = 8192;

// Puts what one read gives at the end of `into`, and tells how many bytes that are.
fn take_piece<I: Source>(source: &mut I, into: &mut Vec<u8>) -> Result<usize, FetchFault>
    requires room { length into.old.items ≤ file_limit }
    ensures within { length into.new.items ≤ file_limit }
    ensures taken { IfOk result (λ n. Grows (I.left source.old) (I.left source.new)
        into.old.items into.new.items n) }
    ensures end { IfOk result (λ n. n ≡ 0 → IsAtEnd (I.left source.old)) }
    ensures err { OnErr result (into.new.items ≡ into.old.items) }
    ensures too_long { IsErrOf result FetchFault.TooLong
        → IfSome (I.left source.old) (λ left. file_limit < length (into.old.items ++ left)) }
    ensures count { I.faults source.old ≤ I.faults source.new }
    ensures cause { IsErrOf result FetchFault.Failed
        → HasFaulted (I.faults source.old) (I.faults source.new) }
{
    let mut piece = [0u8; PIECE];
    let count = source.read(&mut piece)?;
    if count > FILE_LIMIT - into.len() {
        return Err(FetchFault::TooLong);
    }
    into.extend_from_slice(&piece[..count])?;
    Ok(count)
}

/// Reads a source to its end and puts its bytes into `into`, which is empty. It is `TooLong` where
/// the source gives more than 67,108,864 bytes, of which no more are kept; after a fault the first
/// of them stand there.
pub fn read_whole<I: Source>(source: &mut I, into: &mut Vec<u8>) -> Result<(), FetchFault>
    requires empty { into.old.items ≡ [] }
    ensures within { length into.new.items ≤ file_limit }
    ensures ok { OnOk result (Takes (I.left source.old) (I.left source.new) into.new.items) }
    ensures end { OnOk result (IsAtEnd (I.left source.new)) }
    ensures front { OnErr result (IfSome (I.left source.old) (λ bytes.
        (rest : List ℕ) × (into.new.items ++ rest ≡ bytes))) }
    ensures too_long { IsErrOf result FetchFault.TooLong
        → IfSome (I.left source.old) (λ bytes. file_limit < length bytes) }
    ensures count { I.faults source.old ≤ I.faults source.new }
    ensures cause { IsErrOf result FetchFault.Failed
        → HasFaulted (I.faults source.old) (I.faults source.new) }
{
    while take_piece(source, into)? > 0 {}
    Ok(())
}
