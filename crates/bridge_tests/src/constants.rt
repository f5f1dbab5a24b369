// Rows of two constants: one in `Reals`, and two whose sums may exceed 128 bits.
ghost use Rattle.std.specs.Prelude.{◌≡◌, IfOk};
ghost use Rattle.item_core.specs.Edge.{family_of};
ghost use Rattle.item_core.specs.declared.edge.Edge.TheVariants as edges;
ghost use Rattle.bridge_tests.specs.SampleLaws.{item_of, two_constants};

use crate::round::{keep, show_end};
use crate::samples::{place, ratio};
use crate::shown::show_image;
use aff_core::{Aff, VecAff};
use any_bridge::AnyBridge;
use bridge_face::Bridge;
use item_core::{Body, Edge, Family, Image, Item};
use lists::Memory;
use ratio_core::{NumberFault, Ratio};
use set_core::Set;
use std::alloc::Global;
use test_support::Page;

/// Prints what is carried back to a row of two numbers in `Reals`, and that nothing is kept after
/// all is removed.
pub fn reals(page: &mut Page) {
    let mut bridge = AnyBridge::new(page.alloc(), Family::DropReals);
    if let Err(fault) = keep_reals(page, &mut bridge) {
        show_fault(page, fault);
    }
    bridge.let_all_go();
    show_end(page, &mut bridge);
    drop(bridge);
}

fn keep_reals<B: Bridge>(page: &mut Page, bridge: &mut B) -> Result<(), NumberFault>
    requires { family_of edges.E40 ≡ (B.state bridge.old).family }
{
    let set = Set::Reals { dimension: 2 };
    let item = constants(page.alloc(), Ratio::one(), Ratio::zero(), set)?;
    keep(page, bridge, Edge::E40, item)
}

/// Prints the images of two rows of constants: the greatest number over -1, and over 0.
pub fn greatest(page: &mut Page) {
    let greatest = ratio(i128::MAX, 1);
    norm(page, greatest, Ratio::one().neg());
    norm(page, greatest, Ratio::zero());
}

// Prints the image of the row that the first constant is above the other's magnitude.
fn norm(page: &mut Page, first: Ratio, other: Ratio) {
    page.line(format_args!("{first} {other}"));
    match norm_image(page.alloc(), first, other) {
        Ok(image) => {
            show_image(page, &image);
            drop(image);
        }
        Err(fault) => show_fault(page, fault),
    }
}

fn show_fault(page: &mut Page, fault: NumberFault) {
    match fault {
        NumberFault::Overflow => page.line("  a coefficient passes 128 bits"),
        NumberFault::Memory => page.line("  stopped"),
    }
}

fn norm_image(alloc: Global, first: Ratio, other: Ratio) -> Result<Image, NumberFault> {
    let set = Set::NormInfinityCone { dimension: 2 };
    let item = constants(alloc, first, other, set)?;
    let mut bridge = AnyBridge::new(alloc, Family::NormInfinity);
    let image = bridge.image(Edge::E41, &item);
    drop(bridge);
    drop(item);
    image
}

// The row that the two constants are in the set.
fn constants(alloc: Global, first: Ratio, other: Ratio, set: Set) -> Result<Item, Memory>
    ensures { IfOk result (λ item. item ≡ item_of (two_constants first other set)) }
{
    let mut funcs = Vec::new(alloc);
    funcs.push(Aff::constant_function(alloc, first))?;
    funcs.push(Aff::constant_function(alloc, other))?;
    let func = VecAff::from_vec(funcs);
    Ok(Item {
        at: place(),
        body: Body::AffineVec { func, set },
    })
}
