//! The least or the greatest variable is the least or the greatest affine function.
//!
//! - From: a plain objective, by the edges 60 and 61.
//! - To: at position 0 the affine objective of the same variable and sense.
//! - In MathOptInterface: `FunctionizeBridge` of objectives.

use aff_core::Aff;
use bridge_face::{ObjectiveRule, OneObjective};
use item_core::Body;
use lists::Memory;
use std::alloc::Global;

/// The family that makes affine objectives of plain ones.
pub type ObjFunctionize = OneObjective<ObjFunctionizeRule>;

/// What `ObjFunctionize` does with one objective.
#[derive(Drop)]
pub struct ObjFunctionizeRule;

impl ObjectiveRule for ObjFunctionizeRule {
    ghost use Rattle.item_core.specs.declared.family.Family.TheVariants as families;
    ghost use Rattle.bridges_shape.specs.ObjFunctionizeLaws as laws;

    ghost family = { families.ObjFunctionize };

    ghost source = { laws.IsPlainObjective };

    ghost made = { laws.made };

    fn child(alloc: Global, objective: &Body) -> Result<Body, Memory> {
        match objective {
            Body::PlainObj { sense, var } => Ok(Body::AffineObj {
                sense: *sense,
                func: Aff::variable(alloc, var)?,
            }),
            _ => unreachable!(),
        }
    }

    ghost rule = { laws.rule };
}
