//! Objects, what stands at their keys, and arrays.
ghost use Rattle.std.specs.Prelude.{⊤};
ghost use Rattle.serde_json.specs.View.{items_view, view};
ghost use Rattle.mof_values.specs.Values.{an_array, an_object, field_at};
ghost use Rattle.mof_values.specs.Walked.{MeetsWalk, TellsMofFaultAt, key_part};

use crate::fault::{MofFault, here};
use serde_json::Value;
use std::alloc::Global;

/// The value has to be an object.
#[tactic(auto, unfolding(crate::specs::Values::an_object))]
pub fn require_object(alloc: Global, value: &Value) -> Result<(), MofFault>
    ensures { MeetsWalk (λ _. tt) result (an_object (view value.now)) }
{
    if value.is_object() {
        Ok(())
    } else {
        Err(MofFault::Shape { place: here(alloc) })
    }
}

/// What stands at a key, which has to be there.
#[tactic(auto, unfolding(crate::specs::Values::field_at))]
pub fn field<'v>(alloc: Global, name: &str, value: &'v Value) -> Result<&'v Value, MofFault>
    ensures { MeetsWalk (λ found. view found.now) result (field_at name.now (view value.now)) }
{
    match value.get(name) {
        Some(found) => Ok(found),
        None => Err(MofFault::Shape { place: here(alloc) }.under_key(alloc, name)),
    }
}

/// What was read at a key, seen from the object.
pub fn at_key<T>(alloc: Global, name: &str, read: Result<T, MofFault>) -> Result<T, MofFault>
    ensures { TellsMofFaultAt (key_part name.now) read result }
{
    match read {
        Ok(value) => Ok(value),
        Err(fault) => Err(fault.under_key(alloc, name)),
    }
}

/// The value has to be an array.
#[tactic(auto, unfolding(crate::specs::Values::an_array))]
pub fn array<'v>(alloc: Global, value: &'v Value) -> Result<&'v [Value], MofFault>
    ensures { MeetsWalk (λ items. items_view items.now) result (an_array (view value.now)) }
{
    match value.as_array() {
        Some(items) => Ok(items),
        None => Err(MofFault::Shape { place: here(alloc) }),
    }
}
