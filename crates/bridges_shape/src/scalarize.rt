//! A row in a cone of vectors is a row for each component: `f_i = 0`, `f_i ≥ 0` or `f_i ≤ 0`.
//!
//! - From: a plain or an affine vector row in `Zeros`, `Nonnegatives` or `Nonpositives`, by the
//!   edges 15 to 20.
//! - To: at position i the row of component i in `EqualTo(0)`, `GreaterThan(0)` or `LessThan(0)`.
//! - Dual: the numbers of the child rows' duals, in order.
//! - In MathOptInterface: `ScalarizeBridge`.
ghost use Rattle.std.specs.Prelude.{◌≡◌, ◌<◌, ◌≤◌, IfOk, length, map};
ghost use Rattle.bridge_face.specs.BackOf.{joined};
ghost use Rattle.bridge_face.specs.Images.{children_from, component_of};
ghost use Rattle.bridges_shape.specs.ScalarizeLaws.{HasComponentSet, IsConeRow, made};
ghost use Rattle.item_core.specs.Item.{functions_of};
ghost use Rattle.item_core.specs.declared.item.Body.TheVariants as bodies;

use aff_core::{Address, Aff};
use bridge_face::{ChildRows, KeptItem, Rewriting, component_count, rows_image};
use item_core::{Body, Edge, Image, Item};
use lists::{Duplicate, Memory};
use ratio_core::{NumberFault, Ratio, Ratios};
use set_core::Set;
use std::alloc::Global;

/// The family that makes a row of each component.
#[derive(Drop)]
pub struct Scalarize;

impl Rewriting for Scalarize {
    ghost use Rattle.item_core.specs.declared.family.Family.TheVariants as families;
    ghost use Rattle.bridges_shape.specs.ScalarizeLaws.{scalarize_lawful};

    ghost family = { families.Scalarize };

    fn image(alloc: Global, _edge: Edge, item: &Item) -> Result<Image, NumberFault> {
        let rows = parts(alloc, item)?;
        Ok(rows_image(alloc, rows))
    }

    fn child_rows(kept: &KeptItem) -> ChildRows {
        ChildRows {
            first: 0,
            count: component_count(&kept.item.body),
        }
    }

    fn back(alloc: Global, _kept: &KeptItem, duals: &[Ratios]) -> Result<Ratios, NumberFault> {
        Ok(one_after_another(alloc, duals)?)
    }

    ghost lawful = { scalarize_lawful };
}

// A component of a vector row, of which a row of its own is made.
trait Component {
    ghost use Rattle.item_core.specs.declared.item.Body.{Body};
    ghost use Rattle.set_core.specs.declared.set.Set.{Set};

    ghost made_row: { Self → Set → Body };

    // The row of the component alone in a set of numbers.
    fn alone(&self, set: Set) -> Result<Body, Memory>
        ensures { IfOk result (λ alone. alone ≡ made_row self.now set) };
}

impl Component for Address {
    ghost made_row = { λ var set. bodies.Plain var set };

    fn alone(&self, set: Set) -> Result<Body, Memory> {
        Ok(Body::Plain { var: *self, set })
    }
}

impl Component for Aff {
    ghost made_row = { λ func set. bodies.Affine func set };

    fn alone(&self, set: Set) -> Result<Body, Memory> {
        let func = self.copy()?;
        Ok(Body::Affine { func, set })
    }
}

// A row for each component.
fn parts(alloc: Global, item: &Item) -> Result<Vec<Item>, Memory>
    requires row { IsConeRow item.now.body }
    requires depth { length item.now.at.positions < 40 }
    requires count { length (functions_of item.now.body) ≤ 32767 }
    ensures { IfOk result (λ rows. rows.items ≡ children_from item.now 0 (made item.now.body)) }
{
    match &item.body {
        Body::PlainVec { vars, set } => parts_in(alloc, item, vars.as_slice(), set),
        Body::AffineVec { func, set } => parts_in(alloc, item, func.as_slice(), set),
        _ => unreachable!(),
    }
}

// A row for each of these components of a row in the set.
fn parts_in<C: Component>(
    alloc: Global,
    item: &Item,
    components: &[C],
    set: &Set,
) -> Result<Vec<Item>, Memory>
    requires set { HasComponentSet set.now (component_of set.now) }
    requires depth { length item.now.at.positions < 40 }
    requires count { length components.now ≤ 32767 }
    ensures { IfOk result (λ rows. rows.items ≡ children_from item.now 0
        (map (λ component. C.made_row component (component_of set.now)) components.now)) }
{
    let mut rows = Vec::with_capacity(alloc, components.len())?;
    for n in 0..components.len() {
        let body = components[n].alone(part(set))?;
        rows.push(Item {
            at: item.at.child(n as u16),
            body,
        })?;
    }
    Ok(rows)
}

// The numbers that a component may be.
fn part(set: &Set) -> Set
    requires { HasComponentSet set.now (component_of set.now) }
    ensures { result ≡ component_of set.now }
{
    let zero = Ratio::zero();
    match set {
        Set::Zeros { .. } => Set::EqualTo { value: zero },
        Set::Nonnegatives { .. } => Set::GreaterThan { lower: zero },
        Set::Nonpositives { .. } => Set::LessThan { upper: zero },
        _ => unreachable!(),
    }
}

// The numbers of all lists, in order.
fn one_after_another(alloc: Global, lists: &[Ratios]) -> Result<Ratios, Memory>
    ensures { IfOk result (λ all. all ≡ joined lists.now) }
{
    let mut all = Vec::new(alloc);
    for list in lists {
        all.extend_from_slice(list.as_slice())?;
    }
    Ok(Ratios::from_vec(all))
}
