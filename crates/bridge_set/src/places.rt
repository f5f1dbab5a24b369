//! What is done with bridges, with that of a family or with all.
ghost use Rattle.std.specs.Prelude.{◌≡◌, ◌≤◌, ◌+◌, ◌∷◌, [], All, OnErr, OnOk, map, true};
ghost use Rattle.std.specs.List.{list_any};
ghost use Rattle.ratio_core.specs.Answers.{ExactWhere};
ghost use Rattle.item_core.specs.Edge.{family_eq, family_of};
ghost use Rattle.bridge_face.specs.ImageOf.{image_of, ImageFits};
ghost use Rattle.bridge_face.specs.Law.{IsItemFor, IsLawful};
ghost use Rattle.bridge_face.specs.BridgeState.{all_gone, given, tried};
ghost use Rattle.bridge_set.specs.Bridges.{IsAddressFree, IsChangedFor, families_of};
ghost use Rattle.bridge_set.specs.Letting.{AreReleased, IsReleased};
ghost use Rattle.bridge_set.specs.Turns.{turns_of};

use aff_core::Address;
use bridge_face::{Bridge, KeptItem};
use item_core::{Edge, Family, Image, Item};
use lists::Memory;
use ratio_core::NumberFault;

/// Whether there is a bridge of the family.
pub fn has_family<B: Bridge>(bridges: &[B], family: Family) -> bool
    ensures { result ≡ list_any (family_eq family) (families_of (map B.state bridges.now)) }
{
    for bridge in bridges {
        if family == bridge.family() {
            return true;
        }
    }
    false
}

// Each bridge tells that its family keeps the law.
pub(crate) fn ask_laws<B: Bridge>(bridges: &[B])
    ensures { All IsLawful (families_of (map B.state bridges.now)) }
{
    for bridge in bridges {
        let _lawful = bridge.family();
    }
}

// The image that the bridge of the edge's family makes.
pub(crate) fn image_by<B: Bridge>(
    bridges: &mut [B],
    edge: Edge,
    item: &Item,
) -> Result<Image, NumberFault>
    requires own { list_any (family_eq (family_of edge))
        (families_of (map B.state bridges.old)) ≡ true }
    requires suits { IsItemFor edge item.now }
    ensures answer { ExactWhere result (ImageFits edge item.now)
        (λ image. image ≡ image_of edge item.now) }
    ensures states { IsChangedFor (family_of edge) tried (map B.state bridges.old)
        (map B.state bridges.new) }
{
    let family = edge.entry().family;
    for bridge in bridges.iter_mut() {
        if family == bridge.family() {
            return bridge.image(edge, item);
        }
    }
    unreachable!()
}

// Has the bridge of the edge's family keep an item.
pub(crate) fn keep_by<B: Bridge>(bridges: &mut [B], node: KeptItem) -> Result<(), Memory>
    requires own { list_any (family_eq (family_of node.edge))
        (families_of (map B.state bridges.old)) ≡ true }
    requires suits { IsItemFor node.edge node.item }
    requires free { IsAddressFree node.item.at (map B.state bridges.old) }
    ensures ok { OnOk result (IsChangedFor (family_of node.edge) (λ s. given s node)
        (map B.state bridges.old) (map B.state bridges.new)) }
    ensures err { OnErr result (IsChangedFor (family_of node.edge) tried
        (map B.state bridges.old) (map B.state bridges.new)) }
    ensures families { families_of (map B.state bridges.new)
        ≡ families_of (map B.state bridges.old) }
    ensures turns { turns_of (map B.state bridges.new)
        ≤ turns_of (map B.state bridges.old) + 1 }
{
    let family = node.edge.entry().family;
    for bridge in bridges.iter_mut() {
        if family == bridge.family() {
            return match bridge.keep(node.edge, node.item) {
                Ok(()) => Ok(()),
                Err((_, memory)) => Err(memory),
            };
        }
    }
    unreachable!()
}

// Has each bridge free all that it keeps.
pub(crate) fn clear_all<B: Bridge>(bridges: &mut [B])
    ensures { map B.state bridges.new ≡ map all_gone (map B.state bridges.old) }
{
    for bridge in bridges.iter_mut() {
        bridge.let_all_go();
    }
}

// Has each bridge release what it keeps at and below some items of the model.
pub(crate) fn let_found_go_by<B: Bridge>(bridges: &mut [B], found: &[Address])
    ensures { AreReleased found.now (map B.state bridges.old) (map B.state bridges.new) }
{
    for bridge in bridges.iter_mut() {
        let_items_go(bridge, found);
    }
}

// Releases what a bridge keeps at and below some items of the model.
fn let_items_go<B: Bridge>(bridge: &mut B, items: &[Address])
    ensures { IsReleased items.now (B.state bridge.old) (B.state bridge.new) }
{
    for at in items {
        let_item_go(bridge, at);
    }
}

// Releases what a bridge keeps at and below an item of the model.
fn let_item_go<B: Bridge>(bridge: &mut B, at: &Address)
    ensures { IsReleased (at.now ∷ []) (B.state bridge.old) (B.state bridge.new) }
{
    while let Some(first) = bridge.first_of(at) {
        drop(bridge.let_go(&first));
    }
}
