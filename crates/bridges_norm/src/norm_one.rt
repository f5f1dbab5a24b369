//! `t ≥ Σ |x_i|` is `t - Σ s_i ≥ 0`, `s_i - x_i ≥ 0` and `s_i + x_i ≥ 0`.
//!
//! - From: an affine vector row of `(t, x_1 .. x_n)` in `NormOneCone`, by edge 42.
//! - To: at position 0 a group of n variables `s` in `Reals`, and at position 1 the affine vector
//!   row of `t - s_1 - .. - s_n`, the `s_i - x_i` and then the `s_i + x_i` in `Nonnegatives`.
//! - Dual: of the child row's `(r, p, q)` first r, and then the `q_i - p_i`.
//! - In MathOptInterface: `NormOneBridge`.
ghost use Rattle.std.specs.Prelude.{◌≡◌, ◌≤◌, ◌++◌, ◌∷◌, fold, length};
ghost use Rattle.ratio_core.specs.Answers.{ExactWhere};
ghost use Rattle.item_core.specs.Item.{functions_of};
ghost use Rattle.bridge_face.specs.ComponentLaws.{variables};
ghost use Rattle.bridge_face.specs.ImageOf.{DifferencesFit, EachSumFits, differences, negations, sums};
ghost use Rattle.bridge_face.specs.Images.{difference, function_of_body};
ghost use Rattle.bridges_norm.specs.BothLaws.{others_of};
ghost use Rattle.bridges_norm.specs.NormOneLaws.{InNormOne, NormOneRowsFit, bounded_row};

use crate::differences::less_function;
use crate::duals::across_behind;
use crate::parts::{first_function, first_number, other_functions, other_numbers};
use aff_core::{Address, Aff, VecAff};
use bridge_face::{
    ChildRows, KeptItem, Rewriting, child_group, component_count, group_row_image, inner_variables,
};
use item_core::{Body, Edge, Expressions, Image, Item};
use lists::Duplicate;
use ratio_core::{NumberFault, Ratios};
use set_core::Set;
use std::alloc::Global;

/// The family of rows that bound a sum of magnitudes.
#[derive(Drop)]
pub struct NormOne;

impl Rewriting for NormOne {
    ghost use Rattle.item_core.specs.declared.family.Family.TheVariants as families;
    ghost use Rattle.bridges_norm.specs.NormOneLaws.{norm_one_lawful};

    ghost family = { families.NormOne };

    fn image(alloc: Global, _edge: Edge, item: &Item) -> Result<Image, NumberFault> {
        let count = component_count(&item.body) - 1;
        let vars = inner_variables(alloc, item, count)?;
        let row = bounded(alloc, &item.body, vars.as_slice(), count)?;
        let set = Set::Reals {
            dimension: count as u32,
        };
        let group = child_group(item, set, vars);
        Ok(group_row_image(alloc, item, group, Expressions::new(alloc), row)?)
    }

    fn child_rows(_kept: &KeptItem) -> ChildRows {
        ChildRows { first: 1, count: 1 }
    }

    fn back(alloc: Global, _kept: &KeptItem, duals: &[Ratios]) -> Result<Ratios, NumberFault> {
        let numbers = duals[0].as_slice();
        across_behind(alloc, first_number(numbers), other_numbers(numbers))
    }

    ghost lawful = { norm_one_lawful };
}

// The row that the variables bound the other functions, and their sum the first.
fn bounded(alloc: Global, body: &Body, vars: &[Address], count: u16) -> Result<Body, NumberFault>
    requires cone { InNormOne body.now }
    requires some { 1 ≤ length (functions_of body.now) }
    requires vars { length vars.now ≡ length (others_of body.now) }
    requires count { count ≡ length vars.now }
    requires few { count ≤ 32767 }
    ensures { ExactWhere result
        (NormOneRowsFit (function_of_body body.now) (others_of body.now) (variables vars.now))
        (λ row. row ≡ bounded_row (function_of_body body.now) (others_of body.now) vars.now count) }
{
    let Body::AffineVec { func, .. } = body else {
        unreachable!()
    };
    let funcs = func.as_slice();
    let others = other_functions(funcs);
    let rest = left(alloc, first_function(funcs), vars)?;
    let less = less(alloc, rest, vars, others)?;
    let both = more(alloc, vars, others, less)?;
    let count = count as u32;
    Ok(Body::AffineVec {
        func: VecAff::from_vec(both),
        set: Set::Nonnegatives {
            dimension: count + count + 1,
        },
    })
}

// The first function less each of the variables, one after the other.
fn left(alloc: Global, first: &Aff, vars: &[Address]) -> Result<Aff, NumberFault>
    ensures { ExactWhere result (DifferencesFit first.now (variables vars.now))
        (λ left. left ≡ fold difference first.now (variables vars.now)) }
{
    let mut left = first.copy()?;
    for var in vars {
        left = less_function(&left, &Aff::variable(alloc, var)?)?;
    }
    Ok(left)
}

// Behind a function the variables less the other functions.
fn less(alloc: Global, rest: Aff, vars: &[Address], others: &[Aff]) -> Result<Vec<Aff>, NumberFault>
    requires { length vars.now ≡ length others.now }
    ensures { ExactWhere result (EachSumFits (variables vars.now) (negations others.now))
        (λ less. less.items ≡ rest ∷ differences (variables vars.now) others.now) }
{
    let mut less = Vec::with_capacity(alloc, others.len())?;
    less.push(rest)?;
    for n in 0..vars.len() {
        let var = Aff::variable(alloc, &vars[n])?;
        less.push(less_function(&var, &others[n])?)?;
    }
    Ok(less)
}

// Behind these functions the sums of the variables and the other functions.
fn more(
    alloc: Global,
    vars: &[Address],
    others: &[Aff],
    less: Vec<Aff>,
) -> Result<Vec<Aff>, NumberFault>
    requires { length vars.now ≡ length others.now }
    ensures { ExactWhere result (EachSumFits (variables vars.now) others.now)
        (λ both. both.items ≡ less.items ++ sums (variables vars.now) others.now) }
{
    let mut both = less;
    for n in 0..vars.len() {
        both.push(Aff::variable(alloc, &vars[n])?.add(&others[n])?)?;
    }
    Ok(both)
}
