//! `f ≤ u` is `(f - u) ≤ 0` with one component, and so for `≥` and `=`.
//!
//! - From: a plain or an affine row in `LessThan(u)`, `GreaterThan(l)` or `EqualTo(v)`, by the
//!   edges 5 to 10.
//! - To: at position 0 the affine vector row of `f - u`, `f - l` or `f - v` in `Nonpositives(1)`,
//!   `Nonnegatives(1)` or `Zeros(1)`.
//! - Dual: the child row's.
//! - In MathOptInterface: `VectorizeBridge`.
ghost use Rattle.std.specs.Prelude.{◌≡◌, [], ◌∷◌};
ghost use Rattle.ratio_core.specs.Answers.{ExactWhere};
ghost use Rattle.bridge_face.specs.Images.{number_in, cone_of, raised};
ghost use Rattle.bridges_shape.specs.RaisedLaws.{HasDifferenceCone};
ghost use Rattle.item_core.specs.declared.item.Body.TheVariants as bodies;
ghost use Rattle.ratio_core.specs.Rational.{SumFits, neg_ℚ};

use crate::numbers::{cone, number};
use aff_core::Aff;
use bridge_face::{OneRow, RowRule, alone};
use item_core::Body;
use lists::Duplicate;
use ratio_core::{NumberFault, Ratios};
use set_core::Set;
use std::alloc::Global;

/// The family that makes vector rows of rows in sets with one number.
pub type Vectorize = OneRow<VectorizeRule>;

/// What `Vectorize` does with one row.
#[derive(Drop)]
pub struct VectorizeRule;

impl RowRule for VectorizeRule {
    ghost use Rattle.item_core.specs.declared.family.Family.TheVariants as families;
    ghost use Rattle.bridge_face.specs.OneRowLaws as rows;
    ghost use Rattle.bridges_shape.specs.VectorizeLaws as laws;

    ghost family = { families.Vectorize };

    ghost source = { laws.IsNumberRow };

    ghost made = { laws.made };

    ghost fits = { laws.FitsLowered };

    ghost carried = { rows.same_dual };

    fn child(alloc: Global, row: &Body) -> Result<Body, NumberFault> {
        match row {
            Body::Plain { var, set } => in_cone(alloc, &Aff::variable(alloc, var)?, set),
            Body::Affine { func, set } => in_cone(alloc, func, set),
            _ => unreachable!(),
        }
    }

    fn back(_alloc: Global, _row: &Body, dual: &Ratios) -> Result<Ratios, NumberFault> {
        Ok(dual.copy()?)
    }

    ghost rule = { laws.rule };
}

// The function less the set's number, in the cone that has the differences.
fn in_cone(alloc: Global, func: &Aff, set: &Set) -> Result<Body, NumberFault>
    requires { HasDifferenceCone set.now (number_in set.now) (cone_of set.now) }
    ensures { ExactWhere result (SumFits func.now.constant (neg_ℚ (number_in set.now)))
        (λ row. row ≡ bodies.AffineVec (raised func.now (neg_ℚ (number_in set.now)) ∷ [])
        (cone_of set.now)) }
{
    let constant = func.constant().sub(&number(set))?;
    let func = func.with_constant(constant)?;
    Ok(Body::AffineVec {
        func: alone(alloc, func)?,
        set: cone(set),
    })
}
