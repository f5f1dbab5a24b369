// What becomes of an item that a bridge keeps. An item or an image that was lent is dropped by
// name: where it falls at the end of its block, its drop takes twice the proof.
ghost use Rattle.std.specs.Prelude.{◌≡◌, IsSomeAnd, OnOk, Some, false, true};
ghost use Rattle.item_core.specs.Edge.{family_of};
ghost use Rattle.item_core.specs.Item.{is_group};
ghost use Rattle.bridge_face.specs.ImageOf.{image_of};
ghost use Rattle.bridge_face.specs.Law.{IsItemFor, is_objective};
ghost use Rattle.bridge_face.specs.BridgeState.{found};
ghost use Rattle.bridge_tests.specs.RoundLaws.{KeepsRow};
ghost use Rattle.bridge_tests.specs.SampleLaws.{here};

use crate::duals;
use crate::samples::{place, ratio, sample};
use crate::shown::{show_child_rows, show_image, show_item};
use bridge_face::Bridge;
use item_core::{Body, Edge, Image, Item};
use lists::Memory;
use ratio_core::{NumberFault, Ratios};
use std::alloc::Global;
use test_support::{Page, Stop};

/// Takes an item through the edge: its image, what is carried back of duals, another item in its
/// place, and then none.
pub fn pass<B: Bridge>(page: &mut Page, bridge: &mut B, edge: Edge)
    requires own { family_of edge ≡ (B.state bridge.old).family }
{
    page.line(format_args!("{edge:?} {:?}", bridge.family()));
    if let Err(Stop) = first_and_second(page, bridge, edge) {
        page.line("  stopped");
    }
}

// Has the bridge keep an item, and then another in its place.
fn first_and_second<B: Bridge>(page: &mut Page, bridge: &mut B, edge: Edge) -> Result<(), Stop>
    requires own { family_of edge ≡ (B.state bridge.old).family }
{
    let first = sample(page.alloc(), edge, ratio(5, 2))?;
    keep(page, bridge, edge, first)?;
    let second = sample(page.alloc(), edge, ratio(-3, 1))?;
    change(page, bridge, edge, second);
    Ok(())
}

/// Prints the item and its image, has the bridge keep it in place of what stands there, and
/// prints what is carried back of duals.
pub fn keep<B: Bridge>(
    page: &mut Page,
    bridge: &mut B,
    edge: Edge,
    item: Item,
) -> Result<(), NumberFault>
    requires own { family_of edge ≡ (B.state bridge.old).family }
    requires suits { IsItemFor edge item }
    requires at { item.at ≡ here }
    ensures { OnOk result
        (IsSomeAnd (found (B.state bridge.new) here) (λ kept. kept.edge ≡ edge)) }
{
    show_item(page, &item);
    match bridge.image(edge, &item) {
        Ok(image) => {
            show_image(page, &image);
            let answer = keep_imaged(page, bridge, edge, item, &image);
            drop(image);
            answer
        }
        Err(fault) => {
            drop(item);
            Err(fault)
        }
    }
}

// The same for an item whose image is at hand.
fn keep_imaged<B: Bridge>(
    page: &mut Page,
    bridge: &mut B,
    edge: Edge,
    item: Item,
    image: &Image,
) -> Result<(), NumberFault>
    requires own { family_of edge ≡ (B.state bridge.old).family }
    requires suits { IsItemFor edge item }
    requires at { item.at ≡ here }
    requires image { image.now ≡ image_of edge item }
    ensures { OnOk result
        (IsSomeAnd (found (B.state bridge.new) here) (λ kept. kept.edge ≡ edge)) }
{
    let row = is_row(&item.body);
    hold(bridge, edge, item)?;
    show_child_rows(page, bridge.child_rows(&place()));
    if row {
        return back(page, bridge, edge, image);
    }
    Ok(())
}

// Has the bridge keep an item in place of what stands there.
fn hold<B: Bridge>(bridge: &mut B, edge: Edge, item: Item) -> Result<(), Memory>
    requires own { family_of edge ≡ (B.state bridge.old).family }
    requires suits { IsItemFor edge item }
    requires at { item.at ≡ here }
    ensures { OnOk result
        (found (B.state bridge.new) here ≡ Some (record { edge = edge; item = item })) }
{
    drop(bridge.let_go(&place()));
    match bridge.keep(edge, item) {
        Ok(()) => Ok(()),
        Err((item, memory)) => {
            drop(item);
            Err(memory)
        }
    }
}

// Puts an item in the place of the one that is kept, and prints what the bridge frees then,
// that there is nothing after it, and the turns.
fn change<B: Bridge>(page: &mut Page, bridge: &mut B, edge: Edge, item: Item)
    requires suits { IsItemFor edge item }
    requires at { item.at ≡ here }
    requires kept { IsSomeAnd (found (B.state bridge.old) here) (λ kept. kept.edge ≡ edge) }
{
    drop(bridge.alter(item));
    if let Some(item) = bridge.let_go(&place()) {
        show_item(page, &item);
        drop(item);
    }
    show_end(page, bridge);
}

/// Prints that the bridge keeps nothing, and its turns.
pub fn show_end<B: Bridge>(page: &mut Page, bridge: &mut B) {
    let none = match bridge.let_go(&place()) {
        Some(item) => {
            drop(item);
            false
        }
        None => true,
    };
    page.line(format_args!("  {none} {}", bridge.turns()));
}

// Whether the body is a row's.
fn is_row(body: &Body) -> bool
    ensures group { result ≡ true → is_group body.now ≡ false }
    ensures objective { result ≡ true → is_objective body.now ≡ false }
{
    matches!(
        body,
        Body::Plain { .. } | Body::Affine { .. } | Body::PlainVec { .. } | Body::AffineVec { .. }
    )
}

// Prints what is carried back of some duals.
fn back<B: Bridge>(
    page: &mut Page,
    bridge: &B,
    edge: Edge,
    image: &Image,
) -> Result<(), NumberFault>
    requires { KeepsRow edge image.now (B.state bridge.now) }
{
    let dual = dual_of(page.alloc(), bridge, edge, image)?;
    page.line(format_args!("  dual {:?}", dual.as_slice()));
    Ok(())
}

// The dual by those of the image's rows.
fn dual_of<B: Bridge>(
    alloc: Global,
    bridge: &B,
    edge: Edge,
    image: &Image,
) -> Result<Ratios, NumberFault>
    requires { KeepsRow edge image.now (B.state bridge.now) }
{
    let duals = duals::of_rows(alloc, bridge.family(), image.rows.as_slice())?;
    bridge.back(&place(), &duals)
}
