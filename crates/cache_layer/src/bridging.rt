//! Bridging, with its faults in the user's names.
ghost use Rattle.std.specs.Prelude.{◌≢◌, Err, IfOk, IsTrue};
ghost use Rattle.std.specs.List.{list_all};
ghost use Rattle.bridge_graph.specs.Hypergraph.{is_edge_cost};
ghost use Rattle.lazy_bridge.specs.Few.{ChangesFew};
ghost use Rattle.lazy_bridge.specs.Native.{supports_native};
ghost use Rattle.lazy_bridge.specs.Owned.{HoldsNothing, IsBridgingOf};
ghost use Rattle.local_laws.specs.Unlisted.{LeadBackTo};
ghost use Rattle.cache_layer.specs.Bridging.{IsBridgedInNames, IsFaultOf, IsToldAs};
ghost use Rattle.report_core.specs.declared.refused.Place.{Place};
ghost use Rattle.user_model.specs.Model.{ModelValue};
ghost use Rattle.small_number_laws.specs.SmallNumbers.{HasSmallNumbers};

use crate::fault::BridgeFault;
use bridge_face::Bridge;
use bridged_report::place_at;
use item_core::Table;
use lazy_bridge::{Lazy, PushFault};
use model_store::{CountedView, Undo, UserModel};

/// Bridges a model where nothing is held. The answer is the number of leaves.
pub(crate) fn fill<B: Bridge>(lazy: &mut Lazy<B>, model: &UserModel) -> Result<u64, BridgeFault>
    requires { HoldsNothing lazy.old }
    ensures bridged { IsBridgedInNames lazy.old lazy.old.bridges.table model.now.model
        result lazy.new }
    ensures small { HasSmallNumbers model.now.model
        → (place : Place) → result ≢ Err (BridgeFault.Overflow place) }
    ensures few { IfOk result (λ changed. ChangesFew lazy.old changed lazy.new) }
{
    match lazy.fill(model) {
        Ok(leaves) => Ok(leaves),
        Err(fault) => Err(in_names(lazy, model, fault)),
    }
}

/// Bridges a model after edits in place of the one before, to which the undos lead back. The answer
/// is the number of addresses at which leaves differ.
pub(crate) fn push<'a, B: Bridge>(
    lazy: &mut Lazy<B>,
    model: &'a UserModel,
    undos: &'a [Undo],
) -> Result<u64, BridgeFault>
    requires { (before : ModelValue) × IsBridgingOf lazy.old before
        × LeadBackTo before undos.now model.now.model }
    ensures bridged { IsBridgedInNames lazy.old lazy.old.bridges.table model.now.model
        result lazy.new }
    ensures small { HasSmallNumbers model.now.model
        → (place : Place) → result ≢ Err (BridgeFault.Overflow place) }
    ensures few { IfOk result (λ changed. ChangesFew lazy.old changed lazy.new) }
{
    // what this ensures of the model
    let _valid = model.objective();
    let mut reading = CountedView::new(model);
    match lazy.push(&mut reading, undos) {
        Ok(changed) => Ok(changed),
        Err(fault) => Err(in_names(lazy, model, fault)),
    }
}

/// Bridges a model by another table, with the same answer.
pub(crate) fn set_table<B: Bridge>(
    lazy: &mut Lazy<B>,
    model: &UserModel,
    table: Table,
) -> Result<u64, BridgeFault>
    requires costs { IsTrue (list_all is_edge_cost table.cost) }
    requires native { IsTrue (supports_native table) }
    requires stands { IsBridgingOf lazy.old model.now.model }
    ensures bridged { IsBridgedInNames lazy.old table model.now.model result lazy.new }
    ensures small { HasSmallNumbers model.now.model
        → (place : Place) → result ≢ Err (BridgeFault.Overflow place) }
    ensures few { IfOk result (λ changed. ChangesFew lazy.old changed lazy.new) }
{
    match lazy.set_table(model, table) {
        Ok(changed) => Ok(changed),
        Err(fault) => Err(in_names(lazy, model, fault)),
    }
}

// The fault in the user's names. Where memory runs out for these, nothing is held any more.
fn in_names<B: Bridge>(lazy: &mut Lazy<B>, model: &UserModel, fault: PushFault) -> BridgeFault
    requires { IsFaultOf model.now.model fault }
    ensures { IsToldAs model.now.model lazy.old fault result lazy.new }
{
    let _valid = model.objective();
    match fault {
        PushFault::Unsupported { kind } => BridgeFault::Unsupported { kind },
        PushFault::Memory => BridgeFault::Memory,
        PushFault::Overflow { at } => match place_at(model, &at) {
            Ok(Some(place)) => BridgeFault::Overflow { place },
            Ok(None) => unreachable!(),
            Err(_) => {
                lazy.clear();
                BridgeFault::Memory
            }
        },
    }
}
