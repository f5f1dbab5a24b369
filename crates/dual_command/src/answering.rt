//! What is answered to a command.
ghost use Rattle.std.specs.Prelude.{◌≡◌, ◌≢◌, [], ◌∷◌, All, IsTrue};
ghost use Rattle.std.specs.Prelude as prelude;
ghost use Rattle.std.specs.FinMap as finite;
ghost use Rattle.bridge_set.specs.Bridges.{families_of, occur_once};
ghost use Rattle.dual_command.specs.Says.{SaysDual, SaysOfDual};
ghost use Rattle.dual_command.specs.Duals.{Duals};
ghost use Rattle.dual_model.specs.DualOf.{dual_of_model};
ghost use Rattle.file_command.specs.Loading.{AnswersFile};
ghost use Rattle.io_face.specs.Fault.{HasFaulted};
ghost use Rattle.io_face.specs.Shelf.{AsksFor};
ghost use Rattle.io_face.specs.Told.{told_by};
ghost use Rattle.model_command.specs.Alone.{standard_by};

use crate::command::{DualCommand, Task};
use crate::printing::file_of;
use crate::solving::solved;
use bridge_face::Bridge;
use dualization::{DualFault, dual};
use file_command::{model_by, model_of};
use io_face::Shelf;
use lists::Memory;
use model_store::UserModel;
use report_core::{Answer, Refused, refusal};
use std::alloc::Global;

/// What is answered to a command. Its file is asked for once, and no other is.
pub(crate) fn answer<H: Shelf, B: Bridge>(
    alloc: Global,
    command: &DualCommand,
    shelf: &mut H,
    bridges: Vec<B>,
) -> Answer
    requires once { IsTrue (occur_once (families_of (prelude.map B.state bridges.items))) }
    requires kept { All (λ s. s.kept ≡ finite.empty) (prelude.map B.state bridges.items) }
    ensures answers { let setting = standard_by (prelude.map B.state bridges.items) in
        let told = told_by (H.files shelf.old) (H.sure shelf.old) in
        result ≢ Answer.Memory
        → AnswersFile (SaysOfDual setting command.now.task) told command.now.file result }
    ensures cause { result ≡ Answer.ReadFault
        → HasFaulted (H.faults shelf.old) (H.faults shelf.new) }
    ensures sound { result ≢ Answer.ReadFault → H.faults shelf.new ≡ H.faults shelf.old }
    ensures asks { result ≢ Answer.Memory
        → AsksFor (H.asked shelf.old) (H.asked shelf.new) (command.now.file ∷ []) }
{
    match model_of(alloc, shelf, &command.file) {
        Ok(model) => {
            let answer = answer_on(alloc, command.task, &model, bridges);
            drop(model);
            answer
        }
        Err(answer) => answer,
    }
}

// What is answered to a model.
fn answer_on<B: Bridge>(alloc: Global, task: Task, model: &UserModel, bridges: Vec<B>) -> Answer
    requires once { IsTrue (occur_once (families_of (prelude.map B.state bridges.items))) }
    requires kept { All (λ s. s.kept ≡ finite.empty) (prelude.map B.state bridges.items) }
    ensures { result ≢ Answer.Memory
        → SaysOfDual (standard_by (prelude.map B.state bridges.items)) task model.now.model result }
{
    match dual_of(alloc, model) {
        Ok(dual) => answer_dual(alloc, task, model, dual, bridges).unwrap_or(Answer::Memory),
        Err(answer) => answer,
    }
}

// What is answered to the dual of a model.
fn answer_dual<B: Bridge>(
    alloc: Global,
    task: Task,
    model: &UserModel,
    dual: UserModel,
    bridges: Vec<B>,
) -> Result<Answer, Memory>
    requires dual { dual.model ≡ dual_of_model model.now.model }
    requires settled { dual.parked ≡ [] }
    requires once { IsTrue (occur_once (families_of (prelude.map B.state bridges.items))) }
    requires kept { All (λ s. s.kept ≡ finite.empty) (prelude.map B.state bridges.items) }
    ensures { prelude.IfOk result (SaysDual model.now.model
        (standard_by (prelude.map B.state bridges.items)) task) }
{
    match task {
        Task::Write => {
            let written = file_of(alloc, &dual);
            drop(dual);
            written
        }
        Task::Solve => solved(alloc, model, dual, bridges),
    }
}

// The dual of a model, or what is answered where there is none.
fn dual_of(alloc: Global, model: &UserModel) -> Result<UserModel, Answer>
    ensures { Duals model.now.model result }
{
    match dual(alloc, model) {
        Ok(edits) => model_by(alloc, edits.into_vec()),
        Err(DualFault::Overflow { place }) => {
            Err(refusal(alloc, &Refused::Overflow { place }).unwrap_or(Answer::Memory))
        }
        Err(DualFault::Memory) => Err(Answer::Memory),
    }
}
