//! The least `f` is the least `s` with `s - f ≥ 0`, and the greatest `f` the greatest `s` with
//! `s - f ≤ 0`.
//!
//! - From: an affine objective, by the edges 62 and 63.
//! - To: at position 0 a free variable `s`, at position 1 the affine row of `s - f` in
//!   `GreaterThan(0)` for the least and `LessThan(0)` for the greatest value, and at position 2 the
//!   plain objective of `s`.
//! - In MathOptInterface: `Objective.SlackBridge`.
ghost use Rattle.std.specs.Prelude.{◌≡◌, IfOk};
ghost use Rattle.ratio_core.specs.Rational.{zero_ℚ};
ghost use Rattle.aff_core.specs.Function.{coefficient};
ghost use Rattle.item_core.specs.declared.item.Body.TheVariants as bodies;
ghost use Rattle.bridge_face.specs.ImageOf as images;
ghost use Rattle.bridge_face.specs.Images.{function_of_body};
ghost use Rattle.bridges_slack.specs.ObjSlackLaws.{IsAffineObjective, row_of};

use aff_core::Address;
use bridge_face::{ChildRows, KeptItem, Rewriting, inner_variables, one_item, variable_less};
use item_core::{Body, Edge, Expressions, Image, Item, Sense};
use lists::Memory;
use ratio_core::{NumberFault, Ratio, Ratios};
use set_core::Set;
use std::alloc::Global;

/// The family that gives an objective a slack variable.
#[derive(Drop)]
pub struct ObjSlack;

impl Rewriting for ObjSlack {
    ghost use Rattle.item_core.specs.declared.family.Family.TheVariants as families;
    ghost use Rattle.bridges_slack.specs.ObjSlackLaws.{obj_slack_lawful};

    ghost family = { families.ObjSlack };

    fn image(alloc: Global, _edge: Edge, item: &Item) -> Result<Image, NumberFault> {
        let at = item.at.child(0);
        let var = at.child(0);
        let body = over(&item.body, &var)?;
        let vars = inner_variables(alloc, item, 1)?;
        let group = Body::Free { vars };
        let groups = one_item(alloc, Item { at, body: group })?;
        let at = item.at.child(1);
        let rows = one_item(alloc, Item { at, body })?;
        let objective = Item {
            at: item.at.child(2),
            body: alone(&item.body, var),
        };
        Ok(Image {
            groups,
            exprs: Expressions::new(alloc),
            rows,
            objective: Some(objective),
        })
    }

    fn child_rows(_kept: &KeptItem) -> ChildRows {
        ChildRows { first: 1, count: 1 }
    }

    fn back(_alloc: Global, _kept: &KeptItem, _duals: &[Ratios]) -> Result<Ratios, NumberFault> {
        unreachable!()
    }

    ghost lawful = { obj_slack_lawful };
}

// The row that the variable is no better than the function.
fn over(body: &Body, var: &Address) -> Result<Body, Memory>
    requires affine { IsAffineObjective body.now }
    requires absent { coefficient (function_of_body body.now) var.now ≡ zero_ℚ }
    ensures { IfOk result (λ row. row
        ≡ row_of (images.sense_of body.now) (function_of_body body.now) var.now) }
{
    match body {
        Body::AffineObj { sense, func } => Ok(Body::Affine {
            func: variable_less(var, func)?,
            set: beyond(*sense),
        }),
        _ => unreachable!(),
    }
}

// The variable alone is sought.
fn alone(body: &Body, var: Address) -> Body
    requires { IsAffineObjective body.now }
    ensures { result ≡ bodies.PlainObj (images.sense_of body.now) var }
{
    match body {
        Body::AffineObj { sense, .. } => Body::PlainObj { sense: *sense, var },
        _ => unreachable!(),
    }
}

// Above the function for the least value, below it for the greatest.
fn beyond(sense: Sense) -> Set
    ensures { result ≡ images.beyond sense }
{
    match sense {
        Sense::Min => Set::GreaterThan {
            lower: Ratio::zero(),
        },
        Sense::Max => Set::LessThan {
            upper: Ratio::zero(),
        },
    }
}
