//! Many edits, all or none.
ghost use Rattle.std.specs.Prelude.{◌≡◌, List, IfErr, IfOk, OnErr, OnOk, reverse};
ghost use Rattle.model_store.specs.Store.{StoredModel, refusal_of};
ghost use Rattle.model_store.specs.declared.parked.Parked.{Parked};
ghost use Rattle.user_model.specs.Refusals.{first_refusal};
ghost use Rattle.model_load.specs.Loads.{AreEditsMade, AreMadeBy, AreParkedFor, IsLastStep, IsNextStep, IsUnmade, LeadBack};

use crate::Unmade;
use model_store::{Undo, UserModel};
use user_model::{ApplyFault, Edit};

/// Makes edits in turn and for good, or none of them: where one is refused, its refusal is the
/// answer, and after running out of memory the model is as it was too. On an empty model it makes
/// the model that the edits of a file say.
pub fn load_all(model: &mut UserModel, edits: Vec<Edit>) -> Result<(), ApplyFault>
    ensures { AreMadeBy model.old edits.items result model.new }
{
    match make_all(model, edits) {
        Ok(undos) => {
            settle_all(model, undos);
            Ok(())
        }
        Err(unmade) => Err(ApplyFault::from(unmade)),
    }
}

/// Makes edits in turn, or none of them. Their undos, in the same order, wait.
pub fn make_all(model: &mut UserModel, edits: Vec<Edit>) -> Result<Vec<Undo>, Unmade>
    ensures made { IfOk result (λ undos.
        AreEditsMade model.old edits.items undos.items model.new) }
    ensures unmade { IfErr result (IsUnmade model.old.model edits.items) }
    ensures kept { OnErr result (model.new ≡ model.old) }
{
    let mut undos = Vec::new(*edits.allocator());
    for edit in edits {
        if let Err(fault) = make(model, &mut undos, edit) {
            let unmade = Unmade::behind(undos.len(), fault);
            take_back_all(model, undos);
            return Err(unmade);
        }
    }
    Ok(undos)
}

/// Takes the last edit back that waits, so that the model is as it was before.
#[tactic(auto, using(crate::proofs::Stepping::taken_back))]
pub fn take_back(model: &mut UserModel, undo: Undo)
    requires { (start : StoredModel) × IsLastStep start undo model.old }
    ensures { (start : StoredModel) → IsLastStep start undo model.old → model.new ≡ start }
{
    model.take_back(undo);
}

// Makes an edit, and appends its undo.
fn make(model: &mut UserModel, undos: &mut Vec<Undo>, edit: Edit) -> Result<(), ApplyFault>
    ensures ok { OnOk result (IsNextStep model.old edit model.new undos.old.items undos.new.items) }
    ensures refused { IfErr result (λ fault.
        refusal_of fault ≡ first_refusal model.old.model edit) }
    ensures kept { OnErr result (model.new ≡ model.old) }
    ensures undos { OnErr result (undos.new.items ≡ undos.old.items) }
{
    let undo = model.apply(edit)?;
    match undos.push(undo) {
        Ok(()) => Ok(()),
        Err(full) => {
            take_back(model, full.value);
            Err(ApplyFault::Memory)
        }
    }
}

/// Takes all edits back, the last one first.
pub fn take_back_all(model: &mut UserModel, mut undos: Vec<Undo>)
    requires { (start : StoredModel) × LeadBack start (reverse undos.items) model.old }
    ensures { (start : StoredModel) → LeadBack start (reverse undos.items) model.old
        → model.new ≡ start }
{
    while let Some(undo) = undos.pop() {
        take_back(model, undo);
    }
}

/// Keeps all edits for good.
pub fn settle_all(model: &mut UserModel, mut undos: Vec<Undo>)
    requires { (shorter : List Parked)
        × AreParkedFor shorter (reverse undos.items) model.old.parked }
    ensures model { model.new.model ≡ model.old.model }
    ensures parked { (shorter : List Parked)
        → AreParkedFor shorter (reverse undos.items) model.old.parked
        → model.new.parked ≡ shorter }
{
    while let Some(undo) = undos.pop() {
        model.settle(undo);
    }
}
