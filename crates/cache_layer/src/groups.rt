//! A group of edits, all or none, alone or with the bridging.
ghost use Rattle.std.specs.Prelude.{◌≡◌, ◌≢◌, [], Err, IfErr, IfOk, Ok, OnErr, OnOk, true};
ghost use Rattle.lazy_bridge.specs.Owned.{IsBridgingOf};
ghost use Rattle.cache_layer.specs.Answers.{IsGroupAnswer, UnlessRefused, as_edits};
ghost use Rattle.cache_layer.specs.Bridging.{stays};
ghost use Rattle.cache_layer.specs.Cached.{IsCacheInStep, cached, state_of};
ghost use Rattle.cache_layer.specs.FewCalls.{EditsFew};
ghost use Rattle.model_load.specs.Loads.{AreEditsMade, AreKept, IsUnmade, after_edits};
ghost use Rattle.report_core.specs.declared.refused.Place.{Place};
ghost use Rattle.small_number_laws.specs.SmallNumbers.{HasSmallNumbers};
ghost use Rattle.user_model.specs.Model.{ModelValue};

use crate::GroupFault;
use crate::bridging::push;
use bridge_face::Bridge;
use lazy_bridge::Lazy;
use model_load::{Unmade, make_all, settle_all, take_back_all};
use model_store::{Undo, UserModel};
use ratio_core::Memory;
use std::alloc::Global;
use user_model::Edit;

/// Makes copies of edits for good, or none of them.
pub(crate) fn group_alone(
    alloc: Global,
    model: &mut UserModel,
    edits: &[Edit],
) -> Result<(), Unmade>
    ensures made { OnOk result (AreKept model.old edits.now model.new) }
    ensures unmade { IfErr result (IsUnmade model.old.model edits.now) }
    ensures kept { OnErr result (model.new ≡ model.old) }
{
    let undos = make_copies(alloc, model, edits)?;
    settle_all(model, undos);
    Ok(())
}

/// Makes copies of edits and bridges the model after all of them at once, or leaves both as they
/// were. After running out of memory nothing is bridged any more.
pub(crate) fn group_bridged<B: Bridge>(
    alloc: Global,
    model: &mut UserModel,
    lazy: &mut Lazy<B>,
    edits: &[Edit],
) -> Result<Option<u64>, GroupFault>
    requires stands { IsBridgingOf lazy.old model.old.model }
    requires settled { model.old.parked ≡ [] }
    ensures answer { IsGroupAnswer (state_of (cached model.old lazy.old true)) edits.now result
        (state_of (cached model.new lazy.new (stays (as_edits result)))) }
    ensures untouched { UnlessRefused (as_edits result) (cached model.old lazy.old true)
        (cached model.new lazy.new (stays (as_edits result))) }
    ensures in_step { IsCacheInStep (cached model.new lazy.new (stays (as_edits result))) }
    ensures small { (made : ModelValue) → after_edits model.old.model edits.now ≡ Ok made
        → HasSmallNumbers made → (place : Place) → result ≢ Err (GroupFault.Overflow place) }
    ensures few { EditsFew (as_edits result) lazy.old lazy.new }
{
    let undos = match make_copies(alloc, model, edits) {
        Ok(undos) => undos,
        Err(Unmade::Refused { index, refusal }) => {
            return Err(GroupFault::Refused { index, refusal });
        }
        Err(Unmade::Memory) => {
            lazy.clear();
            return Err(GroupFault::Memory);
        }
    };
    match push(lazy, model, &undos) {
        Ok(changed) => {
            settle_all(model, undos);
            Ok(Some(changed))
        }
        Err(fault) => {
            take_back_all(model, undos);
            Err(GroupFault::from(fault))
        }
    }
}

// Makes copies of edits in turn, or none of them. Their undos, in the same order, wait.
fn make_copies(alloc: Global, model: &mut UserModel, edits: &[Edit]) -> Result<Vec<Undo>, Unmade>
    ensures made { IfOk result (λ undos. AreEditsMade model.old edits.now undos.items model.new) }
    ensures unmade { IfErr result (IsUnmade model.old.model edits.now) }
    ensures kept { OnErr result (model.new ≡ model.old) }
{
    match copied(alloc, edits) {
        Ok(copies) => make_all(model, copies),
        Err(_) => Err(Unmade::Memory),
    }
}

fn copied(alloc: Global, edits: &[Edit]) -> Result<Vec<Edit>, Memory>
    ensures { IfOk result (λ copies. copies.items ≡ edits.now) }
{
    let mut copies = Vec::with_capacity(alloc, edits.len())?;
    for edit in edits {
        copies.push(edit.copy(alloc)?)?;
    }
    Ok(copies)
}
