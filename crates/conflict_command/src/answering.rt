//! What is answered to a file.
ghost use Rattle.std.specs.Prelude.{◌≡◌, ◌≢◌, ◌≤◌, ◌+◌, [], ◌∷◌, All, IsTrue, length};
ghost use Rattle.std.specs.Prelude as prelude;
ghost use Rattle.std.specs.FinMap as finite;
ghost use Rattle.bridge_set.specs.Bridges.{families_of, occur_once};
ghost use Rattle.conflict_command.specs.Says.{SaysOfConflict};
ghost use Rattle.file_command.specs.Loading.{AnswersFile};
ghost use Rattle.io_face.specs.Fault.{HasFaulted};
ghost use Rattle.io_face.specs.Shelf.{AsksFor};
ghost use Rattle.io_face.specs.Told.{told_by};
ghost use Rattle.model_command.specs.Alone.{standard_by};
ghost use Rattle.user_model.specs.Limits.{LAST_NUMBER};

use crate::seeking::sought;
use bridge_face::Bridge;
use file_command::model_of;
use io_face::Shelf;
use model_command::cache_of;
use model_store::UserModel;
use name_index::Name;
use report_core::Answer;
use std::alloc::Global;

/// What is answered to the file of a name. It is asked for once, and no other is.
pub(crate) fn answer<H: Shelf, B: Bridge>(
    alloc: Global,
    name: &Name,
    shelf: &mut H,
    bridges: Vec<B>,
) -> Answer
    requires once { IsTrue (occur_once (families_of (prelude.map B.state bridges.items))) }
    requires kept { All (λ s. s.kept ≡ finite.empty) (prelude.map B.state bridges.items) }
    ensures answers { let setting = standard_by (prelude.map B.state bridges.items) in
        let told = told_by (H.files shelf.old) (H.sure shelf.old) in
        result ≢ Answer.Memory → AnswersFile (SaysOfConflict setting) told name.now result }
    ensures cause { result ≡ Answer.ReadFault
        → HasFaulted (H.faults shelf.old) (H.faults shelf.new) }
    ensures sound { result ≢ Answer.ReadFault → H.faults shelf.new ≡ H.faults shelf.old }
    ensures asks { result ≢ Answer.Memory
        → AsksFor (H.asked shelf.old) (H.asked shelf.new) (name.now ∷ []) }
{
    match model_of(alloc, shelf, name) {
        Ok(model) => {
            // what this ensures: the model is valid
            let _valid = model.rows();
            answer_on(alloc, model, bridges)
        }
        Err(answer) => answer,
    }
}

// What is answered to a model with room for a further number for each row.
fn answer_on<B: Bridge>(alloc: Global, model: UserModel, bridges: Vec<B>) -> Answer
    requires settled { model.parked ≡ [] }
    requires room { model.model.next.row + length model.model.rows ≤ LAST_NUMBER + 1 }
    requires once { IsTrue (occur_once (families_of (prelude.map B.state bridges.items))) }
    requires kept { All (λ s. s.kept ≡ finite.empty) (prelude.map B.state bridges.items) }
    ensures { result ≢ Answer.Memory
        → SaysOfConflict (standard_by (prelude.map B.state bridges.items)) model.model result }
{
    let mut cache = cache_of(alloc, model, bridges);
    let answer = sought(alloc, &mut cache);
    drop(cache);
    answer.unwrap_or(Answer::Memory)
}
