//! Families whose edges make one group, and a row or none.
ghost use Rattle.std.specs.Prelude.{◌≡◌, IfOk};
ghost use Rattle.item_core.specs.Valid.{IsValidItem};

use crate::{ChildRows, KeptItem, Rewriting};
use item_core::{Edge, Image, Item};
use lists::{Duplicate, Memory};
use ratio_core::{NumberFault, Ratios};
use std::alloc::Global;
use std::marker::PhantomData;

/// What is a family's own whose edges make one group of an item, and a row or none: the image, and
/// the proof of its law. What all such families share is `OneGroup`.
pub trait GroupRule: Drop {
    ghost use Rattle.std.specs.Prelude.{ℕ};
    ghost use Rattle.item_core.specs.declared.edge.Edge.{Edge};
    ghost use Rattle.item_core.specs.declared.family.Family.{Family};
    ghost use Rattle.item_core.specs.declared.image.Image.{Image};
    ghost use Rattle.item_core.specs.declared.item.Body.{Body};
    ghost use Rattle.item_core.specs.declared.item.Item.{Item};
    ghost use Rattle.bridge_face.specs.GroupLaws.{IsGroupRule};

    ghost family: { Family };

    // the bodies that an edge leads from
    ghost source: { Edge → Body → Type 0 };

    // the image by an edge, and how many rows it has
    ghost made: { Edge → Item → Image };

    ghost row_count: { ℕ };

    /// The number of child rows, which is 0 or 1.
    fn rows() -> u16
        ensures { result ≡ row_count };

    /// The item's image by an edge of the family.
    fn image(alloc: Global, edge: Edge, item: &Item) -> Result<Image, Memory>
        requires valid { IsValidItem item.now }
        requires suits { source edge item.now.body }
        ensures { IfOk result (λ image. image ≡ made edge item.now) };

    ghost rule: { IsGroupRule family source made row_count };
}

/// What a family of bridges does with one item, of which it makes a group, and a row or none. The
/// dual of a row is that of the row that is made of it.
#[derive(Drop)]
pub struct OneGroup<R: GroupRule> {
    rule: PhantomData<R>,
}

impl<R: GroupRule> Rewriting for OneGroup<R> {
    ghost use Rattle.bridge_face.specs.GroupLaws.{group_lawful};

    ghost family = { R.family };

    fn image(alloc: Global, edge: Edge, item: &Item) -> Result<Image, NumberFault> {
        Ok(R::image(alloc, edge, item)?)
    }

    fn child_rows(_kept: &KeptItem) -> ChildRows {
        ChildRows {
            first: 1,
            count: R::rows(),
        }
    }

    fn back(_alloc: Global, _kept: &KeptItem, duals: &[Ratios]) -> Result<Ratios, NumberFault> {
        Ok(duals[0].copy()?)
    }

    ghost lawful = { group_lawful R.rule };
}
