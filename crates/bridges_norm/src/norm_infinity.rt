//! `t ≥ |x_i|` for each i is `t - x_i ≥ 0` and `t + x_i ≥ 0`.
//!
//! - From: an affine vector row of `(t, x_1 .. x_n)` in `NormInfinityCone`, by edge 41.
//! - To: at position 0 the affine vector row of the `t - x_i` and then the `t + x_i` in
//!   `Nonnegatives`.
//! - Dual: of the child row's `(p, q)` first the sum of all, and then the `q_i - p_i`.
//! - In MathOptInterface: `NormInfinityBridge`.
ghost use Rattle.std.specs.Prelude.{◌≡◌, ◌++◌, All};
ghost use Rattle.ratio_core.specs.Answers.{ExactWhere};
ghost use Rattle.aff_core.specs.Arithmetic.{PlusFits};
ghost use Rattle.aff_core.specs.Function.{negated};
ghost use Rattle.bridges_norm.specs.BothLaws.{less_each, more_each};

use crate::differences::less_function;
use crate::duals::{across_behind, sum};
use crate::parts::{first_function, other_functions};
use aff_core::{Aff, VecAff};
use bridge_face::{OneRow, RowRule};
use item_core::Body;
use ratio_core::{NumberFault, Ratios};
use set_core::Set;
use std::alloc::Global;

/// The family of rows that bound each magnitude.
pub type NormInfinity = OneRow<NormInfinityRule>;

/// What `NormInfinity` does with one row.
#[derive(Drop)]
pub struct NormInfinityRule;

impl RowRule for NormInfinityRule {
    ghost use Rattle.item_core.specs.declared.family.Family.TheVariants as families;
    ghost use Rattle.bridges_norm.specs.NormInfinityLaws as laws;

    ghost family = { families.NormInfinity };

    ghost source = { laws.InNormInfinity };

    ghost made = { laws.made };

    ghost fits = { laws.MadeFits };

    ghost carried = { laws.carried };

    ghost carried_fits = { laws.CarriedFits };

    fn child(alloc: Global, row: &Body) -> Result<Body, NumberFault> {
        let Body::AffineVec { func, .. } = row else {
            unreachable!()
        };
        let funcs = func.as_slice();
        let first = first_function(funcs);
        let others = other_functions(funcs);
        let less = less(alloc, first, others)?;
        let both = more(first, others, less)?;
        let count = others.len() as u32;
        Ok(Body::AffineVec {
            func: VecAff::from_vec(both),
            set: Set::Nonnegatives {
                dimension: count + count,
            },
        })
    }

    fn back(alloc: Global, _row: &Body, dual: &Ratios) -> Result<Ratios, NumberFault> {
        let numbers = dual.as_slice();
        let first = sum(numbers)?;
        across_behind(alloc, first, numbers)
    }

    ghost rule = { laws.rule };
}

// The first function less each other.
fn less(alloc: Global, first: &Aff, others: &[Aff]) -> Result<Vec<Aff>, NumberFault>
    ensures { ExactWhere result (All (λ x. PlusFits first.now (negated x)) others.now)
        (λ less. less.items ≡ less_each first.now others.now) }
{
    let mut less = Vec::with_capacity(alloc, others.len())?;
    for other in others {
        less.push(less_function(first, other)?)?;
    }
    Ok(less)
}

// Behind these functions the sums of the first function and each other.
fn more(first: &Aff, others: &[Aff], less: Vec<Aff>) -> Result<Vec<Aff>, NumberFault>
    ensures { ExactWhere result (All (λ x. PlusFits first.now x) others.now)
        (λ both. both.items ≡ less.items ++ more_each first.now others.now) }
{
    let mut both = less;
    for other in others {
        both.push(first.add(other)?)?;
    }
    Ok(both)
}
