//! What a family of bridges does with one item.
ghost use Rattle.std.specs.Prelude.{◌≡◌};
ghost use Rattle.ratio_core.specs.Answers.{ExactWhere};
ghost use Rattle.item_core.specs.Edge.{family_of};
ghost use Rattle.bridge_face.specs.ImageOf.{image_of, ImageFits};
ghost use Rattle.bridge_face.specs.Law.{IsItemFor, IsLawful};
ghost use Rattle.bridge_face.specs.BridgeState.{IsCarriedBack, TakesDuals, child_rows_of};

use crate::{ChildRows, KeptItem};
use item_core::{Edge, Image, Item};
use ratio_core::{NumberFault, Ratios};
use std::alloc::Global;

/// What a family of bridges does with one item: its image, the dual that is carried back, and the
/// proof of its law. A bridge keeps the items, and calls the family of each.
pub trait Rewriting: Drop {
    ghost use Rattle.item_core.specs.declared.family.Family.{Family};

    ghost family: { Family };

    /// The item's image by an edge of the family.
    fn image(alloc: Global, edge: Edge, item: &Item) -> Result<Image, NumberFault>
        requires own { family_of edge ≡ family }
        requires suits { IsItemFor edge item.now }
        ensures { ExactWhere result (ImageFits edge item.now)
            (λ image. image ≡ image_of edge item.now) };

    /// Where the item's child rows stand.
    fn child_rows(kept: &KeptItem) -> ChildRows
        requires own { family_of kept.now.edge ≡ family }
        requires suits { IsItemFor kept.now.edge kept.now.item }
        ensures { result ≡ child_rows_of kept.now.edge kept.now.item };

    /// The dual of a row, by those of its child rows.
    fn back(alloc: Global, kept: &KeptItem, duals: &[Ratios]) -> Result<Ratios, NumberFault>
        requires own { family_of kept.now.edge ≡ family }
        requires suits { IsItemFor kept.now.edge kept.now.item }
        requires duals { TakesDuals kept.now duals.now }
        ensures { IsCarriedBack result duals.now kept.now };

    ghost lawful: { IsLawful family };
}
