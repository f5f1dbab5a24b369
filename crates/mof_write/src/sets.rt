//! Sets as JSON values.
ghost use Rattle.std.specs.Prelude.{◌≡◌, ◌∷◌, [], IfOk, OnOk, false};
ghost use Rattle.serde_json.specs.View.{view};
ghost use Rattle.set_core.specs.Shapes.{dimension_of, is_scalar};
ghost use Rattle.set_core.specs.declared.set.Set.TheVariants.{Interval};
ghost use Rattle.ratio_core.specs.Rational.{Fits};
ghost use Rattle.mof_write.specs.Sayable.{SetFits};
ghost use Rattle.mof_write.specs.Values.{object_of, set_data, sized_data, word};

use crate::numbers::number;
use lists::Memory;
use ratio_core::Ratio;
use serde_json::{Value, json};
use set_core::Set;
use std::alloc::{AllocError, Global};

/// A set with its type and its numbers.
#[tactic(auto, unfolding(crate::specs::Values::set_data))]
pub(crate) fn set(alloc: Global, set: &Set) -> Result<Value, Memory>
    ensures value { IfOk result (λ value. view value ≡ set_data set.now) }
    ensures fits { OnOk result (SetFits set.now) }
{
    match set {
        Set::LessThan { upper } => Ok(less_than(alloc, number(alloc, *upper)?)?),
        Set::GreaterThan { lower } => Ok(greater_than(alloc, number(alloc, *lower)?)?),
        Set::EqualTo { value } => Ok(equal_to(alloc, number(alloc, *value)?)?),
        Set::Interval { lower, upper } => bounded(alloc, *lower, *upper),
        vectors => Ok(sized(alloc, vector_type(vectors), vectors.dimension())?),
    }
}

// The type of a set of vectors, which has its dimension for its only number.
#[tactic(auto, unfolding(crate::specs::Values::set_data))]
fn vector_type(set: &Set) -> &'static str
    requires { is_scalar set.now ≡ false }
    ensures data { set_data set.now ≡ sized_data result.now (dimension_of set.now) }
    ensures fits { SetFits set.now }
{
    match set {
        Set::Reals { .. } => "Reals",
        Set::Zeros { .. } => "Zeros",
        Set::Nonnegatives { .. } => "Nonnegatives",
        Set::Nonpositives { .. } => "Nonpositives",
        Set::NormInfinityCone { .. } => "NormInfinityCone",
        Set::NormOneCone { .. } => "NormOneCone",
        _ => unreachable!(),
    }
}

#[tactic(auto, unfolding(crate::specs::Values::set_data))]
fn bounded(alloc: Global, lower: Ratio, upper: Ratio) -> Result<Value, Memory>
    ensures value { IfOk result (λ value. view value ≡ set_data (Interval lower upper)) }
    ensures fits { OnOk result (Fits lower × Fits upper) }
{
    let lower = number(alloc, lower)?;
    let upper = number(alloc, upper)?;
    let value = interval(alloc, lower, upper)?;
    Ok(value)
}

fn less_than(alloc: Global, upper: Value) -> Result<Value, AllocError>
    ensures { IfOk result (λ value. view value ≡ object_of
        (("type", word "LessThan") ∷ ("upper", view upper) ∷ [])) }
{
    json!(in alloc; {"type": "LessThan", "upper": upper})
}

fn greater_than(alloc: Global, lower: Value) -> Result<Value, AllocError>
    ensures { IfOk result (λ value. view value ≡ object_of
        (("lower", view lower) ∷ ("type", word "GreaterThan") ∷ [])) }
{
    json!(in alloc; {"lower": lower, "type": "GreaterThan"})
}

fn equal_to(alloc: Global, number: Value) -> Result<Value, AllocError>
    ensures { IfOk result (λ value. view value ≡ object_of
        (("type", word "EqualTo") ∷ ("value", view number) ∷ [])) }
{
    json!(in alloc; {"type": "EqualTo", "value": number})
}

fn interval(alloc: Global, lower: Value, upper: Value) -> Result<Value, AllocError>
    ensures { IfOk result (λ value. view value ≡ object_of
        (("lower", view lower) ∷ ("type", word "Interval") ∷ ("upper", view upper) ∷ [])) }
{
    json!(in alloc; {"lower": lower, "type": "Interval", "upper": upper})
}

fn sized(alloc: Global, kind: &str, dimension: u32) -> Result<Value, AllocError>
    ensures { IfOk result (λ value. view value ≡ sized_data kind.now dimension) }
{
    json!(in alloc; {"dimension": dimension, "type": kind})
}
