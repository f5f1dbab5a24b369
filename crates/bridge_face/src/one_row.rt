//! Families whose edges make one row of a row.
ghost use Rattle.std.specs.Prelude.{◌≡◌, ◌<◌, ◌≤◌, IfOk, length};
ghost use Rattle.ratio_core.specs.Answers.{ExactWhere};
ghost use Rattle.item_core.specs.Item.{functions_of};
ghost use Rattle.bridge_face.specs.Images.{row_at};

use crate::images::one_item;
use crate::{ChildRows, KeptItem, Rewriting};
use item_core::{Body, Edge, Expressions, Image, Item, Items};
use lists::Memory;
use ratio_core::{NumberFault, Ratios};
use std::alloc::Global;
use std::marker::PhantomData;

/// What is a family's own whose edges make one row of a row: the row, the dual that is carried
/// back, and the proof of its law. What all such families share is `OneRow`.
pub trait RowRule: Drop {
    ghost use Rattle.std.specs.Prelude.{List};
    ghost use Rattle.item_core.specs.declared.family.Family.{Family};
    ghost use Rattle.item_core.specs.declared.item.Body.{Body};
    ghost use Rattle.ratio_core.specs.Rational.{Rational};
    ghost use Rattle.bridge_face.specs.OneRowLaws.{IsRowRule};

    ghost family: { Family };

    // the rows that the edges lead from
    ghost source: { Body → Type 0 };

    // what they make of one, where this fits
    ghost made: { Body → Body };

    ghost fits: { Body → Type 0 } = { λ row. Unit {0} };

    // what they carry back to it of the dual, where this fits
    ghost carried: { Body → List Rational → List Rational };

    ghost carried_fits: { Body → List Rational → Type 0 } = { λ row dual. Unit {0} };

    /// The row that is made of a row. `Overflow` exactly where a sum in it exceeds 128 bits.
    fn child(alloc: Global, row: &Body) -> Result<Body, NumberFault>
        requires suits { source row.now }
        requires some { 1 ≤ length (functions_of row.now) }
        requires few { length (functions_of row.now) ≤ 32767 }
        ensures { ExactWhere result (fits row.now) (λ child. child ≡ made row.now) };

    /// The dual of a row, by that of the row that is made of it. `Overflow` exactly where a sum
    /// that it names doesn't fit.
    fn back(alloc: Global, row: &Body, dual: &Ratios) -> Result<Ratios, NumberFault>
        requires suits { source row.now }
        requires some { 1 ≤ length (functions_of row.now) }
        requires size { length dual.now ≡ length (functions_of (made row.now)) }
        ensures { ExactWhere result (carried_fits row.now dual.now)
            (λ back. back ≡ carried row.now dual.now) };

    ghost rule: { IsRowRule family source made fits carried carried_fits };
}

/// What a family of bridges does with one row: it makes another row of it.
#[derive(Drop)]
pub struct OneRow<R: RowRule> {
    rule: PhantomData<R>,
}

impl<R: RowRule> Rewriting for OneRow<R> {
    ghost use Rattle.bridge_face.specs.OneRowLaws.{row_lawful};

    ghost family = { R.family };

    fn image(alloc: Global, _edge: Edge, item: &Item) -> Result<Image, NumberFault> {
        let body = R::child(alloc, &item.body)?;
        Ok(row_image(alloc, item, body)?)
    }

    fn child_rows(_kept: &KeptItem) -> ChildRows {
        ChildRows { first: 0, count: 1 }
    }

    fn back(alloc: Global, kept: &KeptItem, duals: &[Ratios]) -> Result<Ratios, NumberFault> {
        R::back(alloc, &kept.item.body, &duals[0])
    }

    ghost lawful = { row_lawful R.rule };
}

// The image of an item that has one child row, at position 0.
fn row_image(alloc: Global, item: &Item, body: Body) -> Result<Image, Memory>
    requires { length item.now.at.positions < 40 }
    ensures { IfOk result (λ image. image ≡ row_at item.now body) }
{
    let at = item.at.child(0);
    Ok(Image {
        groups: Items::new(alloc),
        exprs: Expressions::new(alloc),
        rows: one_item(alloc, Item { at, body })?,
        objective: None,
    })
}
