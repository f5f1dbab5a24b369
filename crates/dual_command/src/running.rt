//! A run of the command.
ghost use Rattle.std.specs.Prelude.{◌≡◌, All, IsTrue};
ghost use Rattle.std.specs.Prelude as prelude;
ghost use Rattle.std.specs.FinMap as finite;
ghost use Rattle.bridge_set.specs.Bridges.{families_of, occur_once};
ghost use Rattle.command_run.specs.Run.{IsRunOnFile, seen};
ghost use Rattle.command_words.specs.Texts.{texts};
ghost use Rattle.dual_command.specs.Says.{SaysOfDual};
ghost use Rattle.dual_command.specs.Words.{command_in};
ghost use Rattle.io_face.specs.Told.{told_by};
ghost use Rattle.model_command.specs.Alone.{standard_by};

use crate::answering::answer;
use crate::command::command_of;
use bridge_face::Bridge;
use file_command::{Status, end_with};
use io_face::{Shelf, Sink};
use std::alloc::Global;

/// Answers `write MODEL` with the text of the dual of the file's model, as one line, and
/// `solve MODEL` with `dual V` and the best duals of the model's rows and variables, with
/// `dual none` where no duals are right, or with `dual unbounded`. No family occurs twice among
/// the bridges, and they keep nothing.
///
/// A model that can't be loaded is refused as `load` refuses it. Where the dual has none of these
/// answers, one line says why: 12 a limit, 15 a board too large, 16 and 17 no bridging, 17 a number
/// that exceeds 128 bits, 18 too many pivots.
pub fn run<H: Shelf, O: Sink, B: Bridge>(
    alloc: Global,
    words: &[String],
    shelf: &mut H,
    output: &mut O,
    bridges: Vec<B>,
) -> Status
    requires once { IsTrue (occur_once (families_of (prelude.map B.state bridges.items))) }
    requires kept { All (λ s. s.kept ≡ finite.empty) (prelude.map B.state bridges.items) }

    // What is written is the answer to the file's model, whole where the run ended. Each status comes
    // for its cause alone.
    ensures runs { let setting = standard_by (prelude.map B.state bridges.items) in
        let told = told_by (H.files shelf.old) (H.sure shelf.old) in
        IsRunOnFile (command_in (texts words.now)) (λ command. command.file)
        (λ command. SaysOfDual setting command.task) told
        (seen (H.asked shelf.old) (H.faults shelf.old) (O.written output.old) (O.faults output.old))
        (seen (H.asked shelf.new) (H.faults shelf.new) (O.written output.new) (O.faults output.new))
        result }

    // Nothing is fetched or written at other arguments.
    ensures untouched { result ≡ Status.Usage → (shelf.new ≡ shelf.old)
        × (output.new ≡ output.old) }
{
    match command_of(alloc, words) {
        Ok(Some(command)) => end_with(answer(alloc, &command, shelf, bridges), output),
        Ok(None) => Status::Usage,
        Err(_) => Status::Memory,
    }
}
