//! `f in S` are variables `s in S` and the row `f - s = 0`.
//!
//! - From: an affine vector row in `Nonnegatives`, `Nonpositives`, `NormInfinityCone` or
//!   `NormOneCone`, by the edges 27 to 30.
//! - To: at position 0 a group of as many variables `s` in the row's set, and at position 1 the
//!   affine vector row of `f - s` in `Zeros`.
//! - Dual: the child row's.
//! - In MathOptInterface: `VectorSlackBridge`.
ghost use Rattle.std.specs.Prelude.{◌≡◌, All, IfOk, length};
ghost use Rattle.set_core.specs.declared.set.Set.TheVariants.{Zeros};
ghost use Rattle.item_core.specs.declared.item.Body.TheVariants.{AffineVec};
ghost use Rattle.item_core.specs.Item.{functions_of};
ghost use Rattle.bridge_face.specs.ComponentLaws.{variables};
ghost use Rattle.bridge_face.specs.ImageOf.{differences};
ghost use Rattle.bridge_face.specs.Law.{Miss};
ghost use Rattle.bridges_slack.specs.VectorSlackLaws.{InCone};

use aff_core::Address;
use bridge_face::{
    GroupRule, OneGroup, child_group, component_count, group_row_image, inner_variables, item_set,
    less_variables,
};
use item_core::{Body, Edge, Expressions, Image, Item};
use lists::Memory;
use set_core::Set;
use std::alloc::Global;

/// The family that gives a row of vectors slack variables.
pub type VectorSlack = OneGroup<VectorSlackRule>;

/// What `VectorSlack` does with one row.
#[derive(Drop)]
pub struct VectorSlackRule;

impl GroupRule for VectorSlackRule {
    ghost use Rattle.item_core.specs.declared.family.Family.TheVariants as families;
    ghost use Rattle.bridge_face.specs.ImageOf as images;
    ghost use Rattle.bridges_slack.specs.VectorSlackLaws as laws;

    ghost family = { families.VectorSlack };

    ghost source = { laws.VectorSlackSourced };

    ghost made = { λ edge. images.vector_slack };

    ghost row_count = { 1 };

    fn rows() -> u16 {
        1
    }

    fn image(alloc: Global, _edge: Edge, item: &Item) -> Result<Image, Memory> {
        let count = component_count(&item.body);
        let vars = inner_variables(alloc, item, count)?;
        let row = rest(alloc, &item.body, vars.as_slice(), count)?;
        let set = item_set(alloc, &item.body)?;
        let group = child_group(item, set, vars);
        group_row_image(alloc, item, group, Expressions::new(alloc), row)
    }

    ghost rule = { laws.rule };
}

// The row that the functions and the variables are equal.
fn rest(alloc: Global, body: &Body, vars: &[Address], count: u16) -> Result<Body, Memory>
    requires cone { InCone body.now }
    requires count { length (functions_of body.now) ≡ length vars.now }
    requires absent { All (λ v. Miss (functions_of body.now) v) vars.now }
    ensures { IfOk result (λ row. row
        ≡ AffineVec (differences (functions_of body.now) (variables vars.now)) (Zeros count)) }
{
    match body {
        Body::AffineVec { func, .. } => Ok(Body::AffineVec {
            func: less_variables(alloc, func.as_slice(), vars)?,
            set: Set::Zeros {
                dimension: count as u32,
            },
        }),
        _ => unreachable!(),
    }
}
