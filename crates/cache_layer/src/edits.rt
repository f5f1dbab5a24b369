//! An edit of the user's model, or another table, alone or with the bridging.
ghost use Rattle.std.specs.Prelude.{◌≡◌, ◌≢◌, [], Err, IsTrue, true};
ghost use Rattle.std.specs.List.{list_all};
ghost use Rattle.bridge_graph.specs.Hypergraph.{is_edge_cost};
ghost use Rattle.lazy_bridge.specs.Native.{supports_native};
ghost use Rattle.lazy_bridge.specs.Owned.{IsBridgingOf};
ghost use Rattle.cache_layer.specs.Answers.{Becomes, IsEdited, UnlessRefused};
ghost use Rattle.cache_layer.specs.Bridging.{state_by, stays};
ghost use Rattle.cache_layer.specs.Cached.{IsCacheInStep, cached, state_of};
ghost use Rattle.cache_layer.specs.FewCalls.{EditsFew};
ghost use Rattle.model_load.specs.Loads.{IsEditMade};
ghost use Rattle.report_core.specs.declared.refused.Place.{Place};
ghost use Rattle.small_number_laws.specs.SmallNumbers.{HasSmallNumbers};
ghost use Rattle.user_model.specs.Edited.{edited};

use crate::EditFault;
use crate::bridging::{push, set_table};
use bridge_face::Bridge;
use item_core::Table;
use lazy_bridge::Lazy;
use model_load::take_back;
use model_store::UserModel;
use std::slice;
use user_model::{ApplyFault, Edit};

/// Makes an edit for good.
pub(crate) fn edit_alone(model: &mut UserModel, edit: Edit) -> Result<(), ApplyFault>
    ensures { IsEditMade model.old edit result model.new }
{
    let undo = model.apply(edit)?;
    model.settle(undo);
    Ok(())
}

/// Makes an edit and bridges the model anew, or leaves both as they were. Where memory runs out
/// nothing is bridged any more.
#[tactic(auto, using(crate::specs::FewCallsLaws::few_same))]
pub(crate) fn edit_bridged<B: Bridge>(
    model: &mut UserModel,
    lazy: &mut Lazy<B>,
    edit: Edit,
) -> Result<Option<u64>, EditFault>
    requires stands { IsBridgingOf lazy.old model.old.model }
    requires settled { model.old.parked ≡ [] }
    ensures answer { IsEdited (state_of (cached model.old lazy.old true)) edit result
        (state_of (cached model.new lazy.new (stays result))) }
    ensures untouched { UnlessRefused result (cached model.old lazy.old true)
        (cached model.new lazy.new (stays result)) }
    ensures in_step { IsCacheInStep (cached model.new lazy.new (stays result)) }
    ensures small { HasSmallNumbers (edited model.old.model edit)
        → (place : Place) → result ≢ Err (EditFault.Overflow place) }
    ensures few { EditsFew result lazy.old lazy.new }
{
    let undo = match model.apply(edit) {
        Ok(undo) => undo,
        Err(ApplyFault::Refused(refusal)) => return Err(EditFault::Refused(refusal)),
        Err(ApplyFault::Memory) => {
            lazy.clear();
            return Err(EditFault::Memory);
        }
    };
    match push(lazy, model, slice::from_ref(&undo)) {
        Ok(changed) => {
            model.settle(undo);
            Ok(Some(changed))
        }
        Err(fault) => {
            take_back(model, undo);
            Err(EditFault::from(fault))
        }
    }
}

/// Bridges the model by another table, with the same answers.
pub(crate) fn table_bridged<B: Bridge>(
    model: &UserModel,
    lazy: &mut Lazy<B>,
    table: Table,
) -> Result<Option<u64>, EditFault>
    requires costs { IsTrue (list_all is_edge_cost table.cost) }
    requires native { IsTrue (supports_native table) }
    requires stands { IsBridgingOf lazy.old model.now.model }
    requires settled { model.now.parked ≡ [] }
    ensures answer { Becomes (state_of (cached model.now lazy.old true))
        (state_by lazy.old table model.now.model) result
        (state_of (cached model.now lazy.new (stays result))) }
    ensures untouched { UnlessRefused result (cached model.now lazy.old true)
        (cached model.now lazy.new (stays result)) }
    ensures in_step { IsCacheInStep (cached model.now lazy.new (stays result)) }
    ensures small { HasSmallNumbers model.now.model
        → (place : Place) → result ≢ Err (EditFault.Overflow place) }
    ensures few { EditsFew result lazy.old lazy.new }
{
    match set_table(lazy, model, table) {
        Ok(changed) => Ok(Some(changed)),
        Err(fault) => Err(EditFault::from(fault)),
    }
}
