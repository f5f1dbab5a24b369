//! `f ≤ u` is `-f ≥ -u`, and `f ≥ l` is `-f ≤ -l`.
//!
//! - From: a plain or an affine row in `LessThan(u)` or `GreaterThan(l)`, by the edges 1 to 4.
//! - To: at position 0 the affine row of `-f` in `GreaterThan(-u)` or `LessThan(-l)`.
//! - Dual: the child row's, negated.
//! - In MathOptInterface: `LessToGreaterBridge` and `GreaterToLessBridge`.

use crate::flips::{mirror, negations};
use aff_core::Aff;
use bridge_face::{OneRow, RowRule};
use item_core::Body;
use ratio_core::{NumberFault, Ratios};
use std::alloc::Global;

/// The family that turns upper bounds into lower ones, and back.
pub type GreaterLess = OneRow<GreaterLessRule>;

/// What `GreaterLess` does with one row.
#[derive(Drop)]
pub struct GreaterLessRule;

impl RowRule for GreaterLessRule {
    ghost use Rattle.item_core.specs.declared.family.Family.TheVariants as families;
    ghost use Rattle.bridges_flip.specs.FlipLaws as flips;
    ghost use Rattle.bridges_flip.specs.GreaterLessLaws as laws;

    ghost family = { families.GreaterLess };

    ghost source = { laws.IsBound };

    ghost made = { laws.made };

    ghost carried = { flips.negated_dual };

    fn child(alloc: Global, row: &Body) -> Result<Body, NumberFault> {
        match row {
            Body::Plain { var, set } => Ok(Body::Affine {
                func: Aff::variable(alloc, var)?.neg()?,
                set: mirror(set),
            }),
            Body::Affine { func, set } => Ok(Body::Affine {
                func: func.neg()?,
                set: mirror(set),
            }),
            _ => unreachable!(),
        }
    }

    fn back(alloc: Global, _row: &Body, dual: &Ratios) -> Result<Ratios, NumberFault> {
        Ok(negations(alloc, dual.as_slice())?)
    }

    ghost rule = { laws.rule };
}
