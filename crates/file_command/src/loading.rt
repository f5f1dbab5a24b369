//! The model of a file.
ghost use Rattle.std.specs.Prelude.{◌≡◌, ◌≢◌, [], ◌∷◌, ◌≤◌, Err};
ghost use Rattle.io_face.specs.Fault.{HasFaulted};
ghost use Rattle.io_face.specs.Shelf.{AsksFor};
ghost use Rattle.io_face.specs.Told.{told_by};
ghost use Rattle.file_command.specs.Loading.{LoadsStored, MakesOn, MakesStored};
ghost use Rattle.model_load.specs.Loads.{after_edits};
ghost use Rattle.user_model.specs.Model.{empty_model};

use file_answers::tell_fault;
use io_face::Shelf;
use model_load::load_all;
use model_store::UserModel;
use mof_fetch::fetch_edits;
use name_index::Name;
use report_core::{Answer, Refused, refusal};
use std::alloc::Global;
use user_model::{ApplyFault, Edit};

/// The model of the file of a name, or what is answered where the shelf doesn't give it, it isn't
/// read, or an edit of it is refused. The file is asked for once, and no other is.
pub fn model_of<H: Shelf>(alloc: Global, shelf: &mut H, name: &Name) -> Result<UserModel, Answer>
    ensures loads { LoadsStored (told_by (H.files shelf.old) (H.sure shelf.old)) name.now result }
    ensures files { H.files shelf.new ≡ H.files shelf.old }
    ensures sure { H.sure shelf.new ≡ H.sure shelf.old }
    ensures count { H.faults shelf.old ≤ H.faults shelf.new }
    ensures cause { result ≡ Err Answer.ReadFault
        → HasFaulted (H.faults shelf.old) (H.faults shelf.new) }
    ensures sound { result ≢ Err Answer.ReadFault → H.faults shelf.new ≡ H.faults shelf.old }
    ensures asks { result ≢ Err Answer.Memory
        → AsksFor (H.asked shelf.old) (H.asked shelf.new) (name.now ∷ []) }
{
    match fetch_edits(alloc, shelf, name) {
        Ok(edits) => model_by(alloc, edits.into_vec()),
        Err(fault) => Err(tell_fault(alloc, fault).unwrap_or(Answer::Memory)),
    }
}

/// The model that edits make of an empty one, or what is answered where one of them is refused.
pub fn model_by(alloc: Global, edits: Vec<Edit>) -> Result<UserModel, Answer>
    ensures { MakesStored (after_edits empty_model edits.items) result }
{
    let mut model = UserModel::new(alloc);
    match make_all(alloc, &mut model, edits) {
        Ok(()) => Ok(model),
        Err(answer) => {
            drop(model);
            Err(answer)
        }
    }
}

/// Makes edits of a model, all or none, and tells what is answered where one of them is refused.
/// The model is lent, so that no way out frees it.
pub fn make_all(alloc: Global, model: &mut UserModel, edits: Vec<Edit>) -> Result<(), Answer>
    ensures { MakesOn (after_edits model.old.model edits.items) model.old.parked result model.new }
{
    match load_all(model, edits) {
        Ok(()) => Ok(()),
        Err(ApplyFault::Refused(reason)) => {
            Err(refusal(alloc, &Refused::from(reason)).unwrap_or(Answer::Memory))
        }
        Err(ApplyFault::Memory) => Err(Answer::Memory),
    }
}
