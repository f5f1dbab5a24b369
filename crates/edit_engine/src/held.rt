//! What an attached solver holds.
ghost use Rattle.std.specs.Prelude.{◌≡◌, IfOk};
ghost use Rattle.bridged_report.specs.Lines.{bridged_text};
ghost use Rattle.lazy_bridge.specs.Owned.{IsBridgingOf, leaf_model_in};

use bridge_face::Bridge;
use bridged_report::bridged;
use lazy_bridge::Lazy;
use lists::Memory;
use model_store::UserModel;
use name_index::Text;
use std::alloc::Global;

// The leaves of a model's bridging, in the model's names.
pub(crate) fn held<B: Bridge>(
    alloc: Global,
    lazy: &Lazy<B>,
    model: &UserModel,
) -> Result<Text, Memory>
    requires { IsBridgingOf lazy.now model.now.model }
    ensures { IfOk result (λ text.
        text ≡ bridged_text model.now.model (leaf_model_in lazy.now)) }
{
    // what this ensures: native kinds alone are supported
    let _native = lazy.table();
    bridged(alloc, lazy.solver(), lazy.map(), model)
}
