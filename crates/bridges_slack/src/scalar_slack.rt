//! `f in S` is a variable `s in S` and the row `f - s = 0`.
//!
//! - From: an affine row in `LessThan`, `GreaterThan` or `Interval`, by the edges 31 to 33.
//! - To: at position 0 a group of one variable `s` in the row's set, and at position 1 the affine
//!   row of `f - s` in `EqualTo(0)`.
//! - Dual: the child row's.
//! - In MathOptInterface: `ScalarSlackBridge`.
ghost use Rattle.std.specs.Prelude.{◌≡◌, IfOk};
ghost use Rattle.ratio_core.specs.Rational.{zero_ℚ};
ghost use Rattle.aff_core.specs.Function.{coefficient, variable};
ghost use Rattle.set_core.specs.declared.set.Set.TheVariants.{EqualTo};
ghost use Rattle.item_core.specs.declared.item.Body.TheVariants.{Affine};
ghost use Rattle.bridge_face.specs.Images.{difference, function_of_body};
ghost use Rattle.bridges_slack.specs.ScalarSlackLaws.{IsBoundedRow};

use aff_core::Address;
use bridge_face::{
    GroupRule, OneGroup, child_group, group_row_image, inner_variables, item_set, less_variable,
};
use item_core::{Body, Edge, Expressions, Image, Item};
use lists::Memory;
use ratio_core::Ratio;
use set_core::Set;
use std::alloc::Global;

/// The family that gives a row of numbers a slack variable.
pub type ScalarSlack = OneGroup<ScalarSlackRule>;

/// What `ScalarSlack` does with one row.
#[derive(Drop)]
pub struct ScalarSlackRule;

impl GroupRule for ScalarSlackRule {
    ghost use Rattle.item_core.specs.declared.family.Family.TheVariants as families;
    ghost use Rattle.bridge_face.specs.ImageOf as images;
    ghost use Rattle.bridges_slack.specs.ScalarSlackLaws as laws;

    ghost family = { families.ScalarSlack };

    ghost source = { laws.ScalarSlackSourced };

    ghost made = { λ edge. images.scalar_slack };

    ghost row_count = { 1 };

    fn rows() -> u16 {
        1
    }

    fn image(alloc: Global, _edge: Edge, item: &Item) -> Result<Image, Memory> {
        let group = item.at.child(0);
        let row = rest(&item.body, &group.child(0))?;
        let vars = inner_variables(alloc, item, 1)?;
        let set = item_set(alloc, &item.body)?;
        let group = child_group(item, set, vars);
        group_row_image(alloc, item, group, Expressions::new(alloc), row)
    }

    ghost rule = { laws.rule };
}

// The row that the function and the variable are equal.
fn rest(body: &Body, var: &Address) -> Result<Body, Memory>
    requires bounded { IsBoundedRow body.now }
    requires absent { coefficient (function_of_body body.now) var.now ≡ zero_ℚ }
    ensures { IfOk result (λ row. row
        ≡ Affine (difference (function_of_body body.now) (variable var.now)) (EqualTo zero_ℚ)) }
{
    match body {
        Body::Affine { func, .. } => Ok(Body::Affine {
            func: less_variable(func, var)?,
            set: Set::EqualTo {
                value: Ratio::zero(),
            },
        }),
        _ => unreachable!(),
    }
}
