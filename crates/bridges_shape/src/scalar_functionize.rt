//! A variable in a set of numbers is an affine function in it.
//!
//! - From: a plain row in a set of numbers, by the edges 23 to 26.
//! - To: at position 0 the affine row of the same variable in the same set.
//! - Dual: the child row's.
//! - In MathOptInterface: `ScalarFunctionizeBridge`.

use crate::functionize::functionized;
use bridge_face::{OneRow, RowRule};
use item_core::Body;
use lists::Duplicate;
use ratio_core::{NumberFault, Ratios};
use std::alloc::Global;

/// The family that makes affine rows of plain rows.
pub type ScalarFunctionize = OneRow<ScalarFunctionizeRule>;

/// What `ScalarFunctionize` does with one row.
#[derive(Drop)]
pub struct ScalarFunctionizeRule;

impl RowRule for ScalarFunctionizeRule {
    ghost use Rattle.item_core.specs.declared.family.Family.TheVariants as families;
    ghost use Rattle.bridge_face.specs.OneRowLaws as rows;
    ghost use Rattle.bridges_shape.specs.FunctionizeLaws as functionize;
    ghost use Rattle.bridges_shape.specs.ScalarFunctionizeLaws as laws;

    ghost family = { families.ScalarFunctionize };

    ghost source = { functionize.IsPlainRow };

    ghost made = { functionize.made };

    ghost carried = { rows.same_dual };

    fn child(alloc: Global, row: &Body) -> Result<Body, NumberFault> {
        Ok(functionized(alloc, row)?)
    }

    fn back(_alloc: Global, _row: &Body, dual: &Ratios) -> Result<Ratios, NumberFault> {
        Ok(dual.copy()?)
    }

    ghost rule = { laws.rule };
}
