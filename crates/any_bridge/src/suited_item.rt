//! Items that their edges lead from.
ghost use Rattle.std.specs.Prelude.{◌≡◌};
ghost use Rattle.bridge_face.specs.Law.{IsItemFor};

use bridge_face::KeptItem;
use item_core::{Edge, Item};
use std::marker::Model;

/// An item with an edge that leads from it.
#[derive(Drop)]
pub(crate) struct SuitedItem {
    kept: KeptItem,
}

impl Model for SuitedItem {
    ghost use Rattle.bridge_face.specs.declared.kept_item.KeptItem.{KeptItem};
    ghost use Rattle.bridge_face.specs.contracts.kept_item.KeptItem as contracts;
    ghost use Rattle.bridge_face.specs.Law.{IsItemFor};

    ghost Value = { KeptItem };

    ghost coded = { (contracts.the_row).coded };

    ghost view = { λ a. a.kept };

    ghost invariant = { λ a. IsItemFor a.kept.edge a.kept.item };
}

impl SuitedItem {
    pub(crate) fn new(edge: Edge, item: Item) -> SuitedItem
        requires { IsItemFor edge item }
        ensures { result ≡ record { edge = edge; item = item } }
    {
        SuitedItem {
            kept: KeptItem { edge, item },
        }
    }

    pub(crate) fn kept(&self) -> &KeptItem
        ensures value { result.now ≡ self.now }
        ensures suits { IsItemFor result.now.edge result.now.item }
    {
        &self.kept
    }

    pub(crate) fn into_kept(self) -> KeptItem
        ensures { result ≡ self }
    {
        self.kept
    }
}
