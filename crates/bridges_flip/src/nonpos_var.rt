//! Variables `x ≤ 0` are `-s` with `s ≥ 0`.
//!
//! - From: a group in `Nonpositives`, by edge 44.
//! - To: at position 0 a group `s` of as many variables in `Nonnegatives`; component i is `-s_i`.
//! - In MathOptInterface: `NonposToNonnegBridge` of variables.
ghost use Rattle.std.specs.Prelude.{◌≡◌, IfOk, map};
ghost use Rattle.bridges_flip.specs.NonposVarLaws.{negative};

use aff_core::{Address, Aff};
use bridge_face::{
    GroupRule, OneGroup, child_group, component_count, group_image, inner_variables,
};
use item_core::{Edge, Expression, Expressions, Image, Item};
use lists::Memory;
use set_core::Set;
use std::alloc::Global;

/// The family of variables that are at most 0.
pub type NonposVar = OneGroup<NonposVarRule>;

/// What `NonposVar` does with one group.
#[derive(Drop)]
pub struct NonposVarRule;

impl GroupRule for NonposVarRule {
    ghost use Rattle.item_core.specs.declared.family.Family.TheVariants as families;
    ghost use Rattle.bridge_face.specs.ImageOf as images;
    ghost use Rattle.bridges_flip.specs.NonposVarLaws as laws;

    ghost family = { families.NonposVar };

    ghost source = { laws.NonposVarSourced };

    ghost made = { λ edge. images.nonpos_var };

    ghost row_count = { 0 };

    fn rows() -> u16 {
        0
    }

    fn image(alloc: Global, _edge: Edge, group: &Item) -> Result<Image, Memory> {
        let count = component_count(&group.body);
        let vars = inner_variables(alloc, group, count)?;
        let exprs = negatives(alloc, vars.as_slice())?;
        let set = Set::Nonnegatives {
            dimension: count as u32,
        };
        group_image(alloc, child_group(group, set, vars), exprs)
    }

    ghost rule = { laws.rule };
}

// The negations of the variables.
fn negatives(alloc: Global, vars: &[Address]) -> Result<Expressions, Memory>
    ensures { IfOk result (λ exprs. exprs ≡ map negative vars.now) }
{
    let mut exprs = Vec::with_capacity(alloc, vars.len())?;
    for var in vars {
        exprs.push(Expression::Bridged {
            func: Aff::variable(alloc, var)?.neg()?,
        })?;
    }
    Ok(Expressions::from_vec(exprs))
}
