//! Variables in a set of vectors are affine functions in it.
//!
//! - From: a plain vector row, but in `Reals`, by the edges 34 to 38.
//! - To: at position 0 the affine row of the same variables in the same set.
//! - Dual: the child row's.
//! - In MathOptInterface: `VectorFunctionizeBridge`.

use crate::functionize::functionized;
use bridge_face::{OneRow, RowRule};
use item_core::Body;
use lists::Duplicate;
use ratio_core::{NumberFault, Ratios};
use std::alloc::Global;

/// The family that makes affine rows of plain vector rows.
pub type VectorFunctionize = OneRow<VectorFunctionizeRule>;

/// What `VectorFunctionize` does with one row.
#[derive(Drop)]
pub struct VectorFunctionizeRule;

impl RowRule for VectorFunctionizeRule {
    ghost use Rattle.item_core.specs.declared.family.Family.TheVariants as families;
    ghost use Rattle.bridge_face.specs.OneRowLaws as rows;
    ghost use Rattle.bridges_shape.specs.FunctionizeLaws as functionize;
    ghost use Rattle.bridges_shape.specs.VectorFunctionizeLaws as laws;

    ghost family = { families.VectorFunctionize };

    ghost source = { functionize.IsPlainRow };

    ghost made = { functionize.made };

    ghost carried = { rows.same_dual };

    fn child(alloc: Global, row: &Body) -> Result<Body, NumberFault> {
        Ok(functionized(alloc, row)?)
    }

    fn back(_alloc: Global, _row: &Body, dual: &Ratios) -> Result<Ratios, NumberFault> {
        Ok(dual.copy()?)
    }

    ghost rule = { laws.rule };
}
