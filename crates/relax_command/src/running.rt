//! A run of the command.
ghost use Rattle.std.specs.Prelude.{◌≡◌, All, IsTrue};
ghost use Rattle.std.specs.Prelude as prelude;
ghost use Rattle.std.specs.FinMap as finite;
ghost use Rattle.bridge_set.specs.Bridges.{families_of, occur_once};
ghost use Rattle.command_run.specs.Run.{IsRunOnFile, seen};
ghost use Rattle.command_words.specs.Texts.{texts};
ghost use Rattle.file_command.specs.Words.{model_word};
ghost use Rattle.io_face.specs.Told.{told_by};
ghost use Rattle.model_command.specs.Alone.{standard_by};
ghost use Rattle.relax_command.specs.Says.{SaysOfRelaxation};

use crate::answering::answer;
use bridge_face::Bridge;
use file_command::{Status, end_with, model_word};
use io_face::{Shelf, Sink};
use std::alloc::Global;

/// Writes the relaxation of the model of a file, whose name is the one argument: `relaxed V`, a point
/// and by how much it misses each scalar affine row, or a certificate that no point meets the other
/// rows. No family occurs twice among the bridges, and they keep nothing.
///
/// A model that can't be loaded is refused as `load` refuses it. Where the relaxation has no answer,
/// one line says why: 12 a limit, 15 a board too large, 16 and 17 no bridging, 17 a number that
/// exceeds 128 bits, 18 too many pivots.
pub fn run<H: Shelf, O: Sink, B: Bridge>(
    alloc: Global,
    words: &[String],
    shelf: &mut H,
    output: &mut O,
    bridges: Vec<B>,
) -> Status
    requires once { IsTrue (occur_once (families_of (prelude.map B.state bridges.items))) }
    requires kept { All (λ s. s.kept ≡ finite.empty) (prelude.map B.state bridges.items) }

    // What is written is the answer to the file's model, whole where the run ended. Each status comes
    // for its cause alone.
    ensures runs { let setting = standard_by (prelude.map B.state bridges.items) in
        let told = told_by (H.files shelf.old) (H.sure shelf.old) in
        IsRunOnFile (model_word (texts words.now)) (λ name. name) (λ _. SaysOfRelaxation setting) told
        (seen (H.asked shelf.old) (H.faults shelf.old) (O.written output.old) (O.faults output.old))
        (seen (H.asked shelf.new) (H.faults shelf.new) (O.written output.new) (O.faults output.new))
        result }

    // Nothing is fetched or written at other arguments.
    ensures untouched { result ≡ Status.Usage → (shelf.new ≡ shelf.old)
        × (output.new ≡ output.old) }
{
    match model_word(alloc, words) {
        Ok(Some(name)) => end_with(answer(alloc, &name, shelf, bridges), output),
        Ok(None) => Status::Usage,
        Err(_) => Status::Memory,
    }
}
