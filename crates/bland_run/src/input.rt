//! The input, read whole as far as its limit.
ghost use Rattle.std.specs.Prelude.{◌≡◌, ◌≤◌, ◌<◌, ◌+◌, ◌-◌, ◌++◌, [], IfOk, IfSome, length, OnOk, OnErr, IsErrOf};
ghost use Rattle.std.specs.Io.KnownBytes.{IsAtEnd};
ghost use Rattle.io_face.specs.Fault.{HasFaulted};
ghost use Rattle.io_face.specs.Source.{Takes, TakesAtMost};
ghost use Rattle.io_face.specs.Whole.{Grows};
ghost use Rattle.bland_run.specs.Input.{input_limit};

use io_face::{FetchFault, Source};

/// The most bytes that the input has.
const INPUT_LIMIT: usize = 65536;

// How many bytes are asked for at once.
const PIECE: usize = 8192;

// Puts what one read gives at the end of `into`, and tells how many bytes that are. At most one
// byte past the limit is taken.
fn take_piece<I: Source>(source: &mut I, into: &mut Vec<u8>) -> Result<usize, FetchFault>
    requires room { length into.old.items ≤ input_limit }
    ensures within { length into.new.items ≤ input_limit }
    ensures taken { IfOk result (λ n. Grows (I.left source.old) (I.left source.new)
        into.old.items into.new.items n) }
    ensures end { IfOk result (λ n. n ≡ 0 → IsAtEnd (I.left source.old)) }
    ensures err { OnErr result (into.new.items ≡ into.old.items) }
    ensures lost { OnErr result (TakesAtMost (input_limit + 1 - length into.old.items)
        (I.left source.old) (I.left source.new)) }
    ensures too_long { IsErrOf result FetchFault.TooLong
        → IfSome (I.left source.old) (λ left. input_limit < length (into.old.items ++ left)) }
    ensures count { I.faults source.old ≤ I.faults source.new }
    ensures cause { IsErrOf result FetchFault.Failed
        → HasFaulted (I.faults source.old) (I.faults source.new) }
{
    let mut piece = [0u8; PIECE];
    let room = (INPUT_LIMIT - into.len() + 1).min(PIECE);
    let count = source.read(&mut piece[..room])?;
    if count > INPUT_LIMIT - into.len() {
        return Err(FetchFault::TooLong);
    }
    into.extend_from_slice(&piece[..count])?;
    Ok(count)
}

// Reads the input to its end and puts its bytes into `into`, which is empty. It is `TooLong` where
// there are more than 65,536 bytes, of which one more is taken.
pub(crate) fn read_input<I: Source>(source: &mut I, into: &mut Vec<u8>) -> Result<(), FetchFault>
    requires empty { into.old.items ≡ [] }
    ensures within { length into.new.items ≤ input_limit }
    ensures ok { OnOk result (Takes (I.left source.old) (I.left source.new) into.new.items) }
    ensures end { OnOk result (IsAtEnd (I.left source.new)) }
    ensures taken { TakesAtMost (input_limit + 1) (I.left source.old) (I.left source.new) }
    ensures too_long { IsErrOf result FetchFault.TooLong
        → IfSome (I.left source.old) (λ bytes. input_limit < length bytes) }
    ensures cause { IsErrOf result FetchFault.Failed
        → HasFaulted (I.faults source.old) (I.faults source.new) }
{
    while take_piece(source, into)? > 0 {}
    Ok(())
}
