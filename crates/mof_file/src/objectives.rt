//! The objective of a file.
ghost use Rattle.std.specs.Prelude.{◌≡◌, codes};
ghost use Rattle.serde_json.specs.View.{view};
ghost use Rattle.mof_file.specs.declared.objectives.FileObjective.TheVariants as told;
ghost use Rattle.mof_file.specs.File.{objective_of, optional, sense_named, sense_of, sensed_of};
ghost use Rattle.mof_file.specs.Functions.{objective_function_of};
ghost use Rattle.mof_values.specs.Values.{walk_at};
ghost use Rattle.mof_values.specs.Walked.{MeetsWalk};

use crate::functions::objective_function;
use indexmap::IndexSet;
use mof_values::{MofFault, at_key, field, here, is, require_object, text};
use name_index::Name;
use serde_json::Value;
use std::alloc::Global;
use user_model::{NamedFunc, Sense};

/// An objective of a file.
#[derive(Debug, Drop)]
pub enum FileObjective {
    /// There is none.
    Feasibility,
    Optimize { sense: Sense, func: NamedFunc },
}

/// The objective of a file, which may be missing.
#[tactic(auto, using(mof_values::specs::WalkLaws::at_met))]
pub(crate) fn optional_objective(
    alloc: Global,
    known: &IndexSet<Name>,
    value: &Value,
) -> Result<FileObjective, MofFault>
    ensures { MeetsWalk (λ objective. objective) result
        (optional told.Feasibility (objective_of known.now.keys) "objective" (view value.now)) }
{
    match value.get("objective") {
        Some(found) => at_key(alloc, "objective", objective(alloc, known, found)),
        None => Ok(FileObjective::Feasibility),
    }
}

#[tactic(auto, unfolding(crate::specs::File::objective_of))]
fn objective(
    alloc: Global,
    known: &IndexSet<Name>,
    value: &Value,
) -> Result<FileObjective, MofFault>
    ensures { MeetsWalk (λ objective. objective) result
        (objective_of known.now.keys (view value.now)) }
{
    require_object(alloc, value)?;
    let sense = sense_field(alloc, "sense", value)?;
    sensed(alloc, known, sense, value)
}

#[tactic(auto, unfolding(crate::specs::File::sensed_of))]
fn sensed(
    alloc: Global,
    known: &IndexSet<Name>,
    sense: Option<Sense>,
    value: &Value,
) -> Result<FileObjective, MofFault>
    ensures { MeetsWalk (λ objective. objective) result
        (sensed_of known.now.keys sense (view value.now)) }
{
    let Some(sense) = sense else {
        return Ok(FileObjective::Feasibility);
    };
    let func = function_field(alloc, known, "function", value)?;
    Ok(FileObjective::Optimize { sense, func })
}

#[tactic(auto, using(mof_values::specs::WalkLaws::walk_at_steps))]
fn function_field(
    alloc: Global,
    known: &IndexSet<Name>,
    name: &str,
    value: &Value,
) -> Result<NamedFunc, MofFault>
    ensures { MeetsWalk (λ func. func) result
        (walk_at (objective_function_of known.now.keys) name.now (view value.now)) }
{
    let found = field(alloc, name, value)?;
    at_key(alloc, name, objective_function(alloc, known, found))
}

#[tactic(auto, using(mof_values::specs::WalkLaws::walk_at_steps))]
fn sense_field(alloc: Global, name: &str, value: &Value) -> Result<Option<Sense>, MofFault>
    ensures { MeetsWalk (λ sense. sense) result (walk_at sense_of name.now (view value.now)) }
{
    let found = field(alloc, name, value)?;
    at_key(alloc, name, sense(alloc, found))
}

// A sense, and none for feasibility.
#[tactic(auto, unfolding(crate::specs::File::sense_of))]
fn sense(alloc: Global, value: &Value) -> Result<Option<Sense>, MofFault>
    ensures { MeetsWalk (λ sense. sense) result (sense_of (view value.now)) }
{
    let text = text(alloc, value)?;
    match sense_named(text) {
        Some(sense) => Ok(sense),
        None => Err(MofFault::Shape { place: here(alloc) }),
    }
}

#[tactic(auto, unfolding(crate::specs::File::sense_named))]
fn sense_named(text: &str) -> Option<Option<Sense>>
    ensures { result ≡ sense_named text.now }
{
    if is(text, "feasibility") {
        Some(None)
    } else if is(text, "min") {
        Some(Some(Sense::Min))
    } else if is(text, "max") {
        Some(Some(Sense::Max))
    } else {
        None
    }
}
