//! Sets.
ghost use Rattle.serde_json.specs.View.{view};
ghost use Rattle.set_core.specs.declared.set.Set.TheVariants.{EqualTo, GreaterThan, LessThan};
ghost use Rattle.set_core.specs.Shapes.{resized};
ghost use Rattle.mof_values.specs.Sets.{interval_of, set_of, sized, typed_set_of, vector_set_of};
ghost use Rattle.mof_values.specs.Values.{a_number, field};
ghost use Rattle.mof_values.specs.Walked.{MeetsWalk, mapped};

use crate::fault::MofFault;
use crate::numbers::{integer_field, number_field};
use crate::texts::{is, kind, unknown_kind};
use serde_json::Value;
use set_core::Set;
use std::alloc::Global;

/// The set that a value says.
#[tactic(auto, unfolding(crate::specs::Sets::set_of))]
pub fn read_set(alloc: Global, value: &Value) -> Result<Set, MofFault>
    ensures { MeetsWalk (λ set. set) result (set_of (view value.now)) }
{
    let kind = kind(alloc, value)?;
    typed_set(alloc, kind, value)
}

#[tactic(auto, unfolding(crate::specs::Sets::typed_set_of))]
fn typed_set(alloc: Global, kind: &str, value: &Value) -> Result<Set, MofFault>
    ensures { MeetsWalk (λ set. set) result (typed_set_of kind.now (view value.now)) }
{
    if is(kind, "LessThan") {
        less_than(alloc, value)
    } else if is(kind, "GreaterThan") {
        greater_than(alloc, value)
    } else if is(kind, "EqualTo") {
        equal_to(alloc, value)
    } else if is(kind, "Interval") {
        interval(alloc, value)
    } else {
        vector_set(alloc, kind, value)
    }
}

fn less_than(alloc: Global, value: &Value) -> Result<Set, MofFault>
    ensures { MeetsWalk (λ set. set) result
        (mapped LessThan (field a_number "upper" (view value.now))) }
{
    let upper = number_field(alloc, "upper", value)?;
    Ok(Set::LessThan { upper })
}

fn greater_than(alloc: Global, value: &Value) -> Result<Set, MofFault>
    ensures { MeetsWalk (λ set. set) result
        (mapped GreaterThan (field a_number "lower" (view value.now))) }
{
    let lower = number_field(alloc, "lower", value)?;
    Ok(Set::GreaterThan { lower })
}

fn equal_to(alloc: Global, value: &Value) -> Result<Set, MofFault>
    ensures { MeetsWalk (λ set. set) result
        (mapped EqualTo (field a_number "value" (view value.now))) }
{
    let value = number_field(alloc, "value", value)?;
    Ok(Set::EqualTo { value })
}

#[tactic(auto, unfolding(crate::specs::Sets::interval_of))]
fn interval(alloc: Global, value: &Value) -> Result<Set, MofFault>
    ensures { MeetsWalk (λ set. set) result (interval_of (view value.now)) }
{
    let lower = number_field(alloc, "lower", value)?;
    let upper = number_field(alloc, "upper", value)?;
    Ok(Set::Interval { lower, upper })
}

#[tactic(auto, unfolding(crate::specs::Sets::vector_set_of))]
fn vector_set(alloc: Global, kind: &str, value: &Value) -> Result<Set, MofFault>
    ensures { MeetsWalk (λ set. set) result (vector_set_of kind.now (view value.now)) }
{
    if is(kind, "Reals") {
        sized(alloc, &Set::Reals { dimension: 0 }, value)
    } else if is(kind, "Zeros") {
        sized(alloc, &Set::Zeros { dimension: 0 }, value)
    } else if is(kind, "Nonnegatives") {
        sized(alloc, &Set::Nonnegatives { dimension: 0 }, value)
    } else if is(kind, "Nonpositives") {
        sized(alloc, &Set::Nonpositives { dimension: 0 }, value)
    } else if is(kind, "NormInfinityCone") {
        sized(alloc, &Set::NormInfinityCone { dimension: 0 }, value)
    } else if is(kind, "NormOneCone") {
        sized(alloc, &Set::NormOneCone { dimension: 0 }, value)
    } else {
        Err(unknown_kind(alloc))
    }
}

// The set with the dimension that stands in the file.
fn sized(alloc: Global, set: &Set, value: &Value) -> Result<Set, MofFault>
    ensures { MeetsWalk (λ set. set) result
        (sized (λ n. resized n set.now) (view value.now)) }
{
    let dimension = integer_field(alloc, "dimension", value)?;
    let set = set.resized(alloc, dimension as usize)?;
    Ok(set)
}
