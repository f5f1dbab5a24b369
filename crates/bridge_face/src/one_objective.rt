//! Families whose edges make one objective of an objective.
ghost use Rattle.std.specs.Prelude.{◌≡◌, ◌<◌, IfOk, length};
ghost use Rattle.bridge_face.specs.ImageOf.{objective_at};

use crate::{ChildRows, KeptItem, Rewriting};
use item_core::{Body, Edge, Expressions, Image, Item, Items};
use lists::Memory;
use ratio_core::{NumberFault, Ratios};
use std::alloc::Global;
use std::marker::PhantomData;

/// What is a family's own whose edges make one objective of an objective: the objective, and the
/// proof of its law. What all such families share is `OneObjective`.
pub trait ObjectiveRule: Drop {
    ghost use Rattle.item_core.specs.declared.family.Family.{Family};
    ghost use Rattle.item_core.specs.declared.item.Body.{Body};
    ghost use Rattle.bridge_face.specs.ObjectiveLaws.{IsObjectiveRule};

    ghost family: { Family };

    // the objectives that the edges lead from
    ghost source: { Body → Type 0 };

    // what they make of one
    ghost made: { Body → Body };

    /// The objective that is made of an objective.
    fn child(alloc: Global, objective: &Body) -> Result<Body, Memory>
        requires { source objective.now }
        ensures { IfOk result (λ child. child ≡ made objective.now) };

    ghost rule: { IsObjectiveRule family source made };
}

/// What a family of bridges does with one objective: it makes another of it.
#[derive(Drop)]
pub struct OneObjective<R: ObjectiveRule> {
    rule: PhantomData<R>,
}

impl<R: ObjectiveRule> Rewriting for OneObjective<R> {
    ghost use Rattle.bridge_face.specs.ObjectiveLaws.{objective_lawful};

    ghost family = { R.family };

    fn image(alloc: Global, _edge: Edge, item: &Item) -> Result<Image, NumberFault> {
        let body = R::child(alloc, &item.body)?;
        Ok(objective_image(alloc, item, body))
    }

    fn child_rows(_kept: &KeptItem) -> ChildRows {
        ChildRows { first: 0, count: 0 }
    }

    fn back(_alloc: Global, _kept: &KeptItem, _duals: &[Ratios]) -> Result<Ratios, NumberFault> {
        unreachable!()
    }

    ghost lawful = { objective_lawful R.rule };
}

// The image of an objective that has one child objective, at position 0.
fn objective_image(alloc: Global, item: &Item, body: Body) -> Image
    requires { length item.now.at.positions < 40 }
    ensures { result ≡ objective_at item.now body }
{
    Image {
        groups: Items::new(alloc),
        exprs: Expressions::new(alloc),
        rows: Items::new(alloc),
        objective: Some(Item {
            at: item.at.child(0),
            body,
        }),
    }
}
