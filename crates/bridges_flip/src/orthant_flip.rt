//! `f ≥ 0` is `-f ≤ 0`, and `f ≤ 0` is `-f ≥ 0`.
//!
//! - From: an affine vector row in `Nonnegatives` or `Nonpositives`, by the edges 21 and 22.
//! - To: at position 0 the row of `-f` in the other of the two.
//! - Dual: the child row's, negated.
//! - In MathOptInterface: `NonnegToNonposBridge` and `NonposToNonnegBridge`.

use crate::flips::{mirror, negated_functions, negations};
use bridge_face::{OneRow, RowRule};
use item_core::Body;
use ratio_core::{NumberFault, Ratios};
use std::alloc::Global;

/// The family that turns `Nonnegatives` into `Nonpositives`, and back.
pub type OrthantFlip = OneRow<OrthantFlipRule>;

/// What `OrthantFlip` does with one row.
#[derive(Drop)]
pub struct OrthantFlipRule;

impl RowRule for OrthantFlipRule {
    ghost use Rattle.item_core.specs.declared.family.Family.TheVariants as families;
    ghost use Rattle.bridges_flip.specs.FlipLaws as flips;
    ghost use Rattle.bridges_flip.specs.OrthantFlipLaws as laws;

    ghost family = { families.OrthantFlip };

    ghost source = { laws.IsOrthant };

    ghost made = { laws.made };

    ghost carried = { flips.negated_dual };

    fn child(alloc: Global, row: &Body) -> Result<Body, NumberFault> {
        match row {
            Body::AffineVec { func, set } => Ok(Body::AffineVec {
                func: negated_functions(alloc, func.as_slice())?,
                set: mirror(set),
            }),
            _ => unreachable!(),
        }
    }

    fn back(alloc: Global, _row: &Body, dual: &Ratios) -> Result<Ratios, NumberFault> {
        Ok(negations(alloc, dual.as_slice())?)
    }

    ghost rule = { laws.rule };
}
