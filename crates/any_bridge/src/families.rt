//! What the family of an edge does with one item.
ghost use Rattle.std.specs.Prelude.{◌≡◌};
ghost use Rattle.ratio_core.specs.Answers.{ExactWhere};
ghost use Rattle.item_core.specs.Edge.{family_of};
ghost use Rattle.bridge_face.specs.ImageOf.{ImageFits, image_of};
ghost use Rattle.bridge_face.specs.Law.{IsItemFor};
ghost use Rattle.bridge_face.specs.BridgeState.{IsCarriedBack, TakesDuals, child_rows_of};

use bridge_face::{ChildRows, KeptItem, Rewriting};
use bridges_flip::{GreaterLess, NonposVar, ObjFlip, OrthantFlip};
use bridges_norm::{NormInfinity, NormOne};
use bridges_shape::{
    ObjFunctionize, ScalarFunctionize, Scalarize, VectorFunctionize, Vectorize, VectorizeVar,
};
use bridges_slack::{Later, ObjSlack, ScalarSlack, VectorSlack};
use bridges_split::{DropReals, FreeVar, SplitSet, ZerosVar};
use item_core::{Edge, Family, Image, Item};
use ratio_core::{NumberFault, Ratios};
use std::alloc::Global;

// A call of the function `$name` of the family `$family`.
macro_rules! by_family {
    ($family:expr, $name:ident($($argument:expr),*)) => {
        match_families!([
            GreaterLess OrthantFlip NonposVar ObjFlip Vectorize Scalarize ScalarFunctionize
            VectorFunctionize VectorizeVar ObjFunctionize SplitSet DropReals ZerosVar FreeVar
            ScalarSlack VectorSlack Later ObjSlack NormInfinity NormOne
        ] $family, $name, ($($argument),*))
    };
}

// The `match` with an arm for each of these families.
macro_rules! match_families {
    ([$($each:ident)*] $family:expr, $name:ident, $arguments:tt) => {
        match $family {
            $(Family::$each => $each::$name $arguments,)*
        }
    };
}

// The family of an edge.
fn family(edge: Edge) -> Family
    ensures { result ≡ family_of edge }
{
    edge.entry().family
}

// The image of an item by an edge.
pub(crate) fn image(alloc: Global, edge: Edge, item: &Item) -> Result<Image, NumberFault>
    requires { IsItemFor edge item.now }
    ensures { ExactWhere result (ImageFits edge item.now)
        (λ image. image ≡ image_of edge item.now) }
{
    by_family!(family(edge), image(alloc, edge, item))
}

// Where the child rows of an item stand.
pub(crate) fn child_rows(kept: &KeptItem) -> ChildRows
    requires { IsItemFor kept.now.edge kept.now.item }
    ensures { result ≡ child_rows_of kept.now.edge kept.now.item }
{
    by_family!(family(kept.edge), child_rows(kept))
}

// The dual of a row, by those of its child rows.
pub(crate) fn back(alloc: Global, kept: &KeptItem, duals: &[Ratios]) -> Result<Ratios, NumberFault>
    requires suits { IsItemFor kept.now.edge kept.now.item }
    requires duals { TakesDuals kept.now duals.now }
    ensures { IsCarriedBack result duals.now kept.now }
{
    by_family!(family(kept.edge), back(alloc, kept, duals))
}
