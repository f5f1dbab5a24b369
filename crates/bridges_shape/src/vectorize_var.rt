//! Variables `x ≤ u` are `u + s` with `s ≤ 0`, and so for `≥` and `=`.
//!
//! - From: a group in `LessThan(u)`, `GreaterThan(l)` or `EqualTo(v)`, by the edges 46 to 48.
//! - To: at position 0 a group `s` of one variable in `Nonpositives(1)`, `Nonnegatives(1)` or
//!   `Zeros(1)`; the component is `u + s`, `l + s` or `v + s`.
//! - In MathOptInterface: `VectorizeBridge` of variables.
ghost use Rattle.std.specs.Prelude.{◌≡◌, [], ◌∷◌, IfOk};
ghost use Rattle.aff_core.specs.Function.{variable};
ghost use Rattle.bridge_face.specs.Images.{cone_of, number_in, raised};
ghost use Rattle.bridges_shape.specs.RaisedLaws.{HasDifferenceCone};
ghost use Rattle.bridges_shape.specs.VectorizeVarLaws.{IsNumberGroup};
ghost use Rattle.item_core.specs.Item.{set_of};
ghost use Rattle.item_core.specs.declared.image.Expression.TheVariants as expressions;

use crate::numbers::{cone, number};
use aff_core::{Address, Aff};
use bridge_face::{GroupRule, OneGroup, child_group, group_image, inner_variables};
use item_core::{Body, Edge, Expression, Expressions, Image, Item};
use lists::Memory;
use ratio_core::Ratio;
use set_core::Set;
use std::alloc::Global;

/// The family that makes groups in cones of groups in sets with one number.
pub type VectorizeVar = OneGroup<VectorizeVarRule>;

/// What `VectorizeVar` does with one group.
#[derive(Drop)]
pub struct VectorizeVarRule;

impl GroupRule for VectorizeVarRule {
    ghost use Rattle.item_core.specs.declared.family.Family.TheVariants as families;
    ghost use Rattle.bridge_face.specs.ImageOf as images;
    ghost use Rattle.bridges_shape.specs.VectorizeVarLaws as laws;

    ghost family = { families.VectorizeVar };

    ghost source = { laws.VectorizeVarSourced };

    ghost made = { λ edge. images.vectorize_var };

    ghost row_count = { 0 };

    fn rows() -> u16 {
        0
    }

    fn image(alloc: Global, _edge: Edge, group: &Item) -> Result<Image, Memory> {
        let set = group_set(&group.body);
        let vars = inner_variables(alloc, group, 1)?;
        let exprs = raised_alone(alloc, &group.at.child(0).child(0), number(set))?;
        group_image(alloc, child_group(group, cone(set), vars), exprs)
    }

    ghost rule = { laws.rule };
}

// The set of the group.
fn group_set(body: &Body) -> &Set
    requires { IsNumberGroup body.now }
    ensures set { result.now ≡ set_of body.now }
    ensures number { HasDifferenceCone result.now (number_in result.now) (cone_of result.now) }
{
    match body {
        Body::Group { set, .. } => set,
        _ => unreachable!(),
    }
}

// A variable with a number added, as the only expression.
fn raised_alone(alloc: Global, var: &Address, constant: Ratio) -> Result<Expressions, Memory>
    ensures { IfOk result (λ exprs.
        exprs ≡ expressions.Bridged (raised (variable var.now) constant) ∷ []) }
{
    let mut exprs = Vec::with_capacity(alloc, 1)?;
    let func = Aff::variable(alloc, var)?.with_constant(constant)?;
    exprs.push(Expression::Bridged { func })?;
    Ok(Expressions::from_vec(exprs))
}
