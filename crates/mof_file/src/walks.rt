//! The walk over a file.
ghost use Rattle.std.specs.Prelude.{◌≡◌, IfOk};
ghost use Rattle.serde_json.specs.View.{view};
ghost use Rattle.mof_values.specs.declared.fault.MofFault.TheVariants.{NotJson};
ghost use Rattle.mof_file.specs.File.{file_in, file_of, json_of, members_of, parts_of, seen, whole};
ghost use Rattle.mof_values.specs.Walked.{MeetsWalk, or_fault};

use crate::constraints::optional_constraints;
use crate::file::MofFile;
use crate::objectives::optional_objective;
use crate::variables::variables_field;
use crate::versions::version_field;
use indexmap::IndexSet;
use lists::Memory;
use mof_text::exact_numerals;
use mof_values::MofFault;
use name_index::{Name, Text};
use serde_json::Value;
use std::alloc::Global;

/// What the text of a file says, or the first fault in the order of the walk.
#[tactic(auto, unfolding(crate::specs::File::file_in))]
pub fn read_file(alloc: Global, text: &[u8]) -> Result<MofFile, MofFault>
    ensures { MeetsWalk seen result (file_in text.now) }
{
    let value = json(alloc, text)?;
    file(alloc, &value)
}

// The JSON value of a text, whose numerals are exact.
#[tactic(auto, using(crate::proofs::JsonTexts::json_told))]
fn json(alloc: Global, text: &[u8]) -> Result<Value, MofFault>
    ensures { MeetsWalk (λ value. view value) result (or_fault (NotJson whole) (json_of text.now)) }
{
    let exact = exact_numerals(alloc, text)?;
    match Value::from_slice(alloc, &exact) {
        Ok(value) => Ok(value),
        Err(error) if error.is_memory() => Err(MofFault::Memory),
        Err(_) => Err(MofFault::NotJson {
            place: whole(alloc)?,
        }),
    }
}

// The place of a text that is no object.
fn whole(alloc: Global) -> Result<Text, Memory>
    ensures { IfOk result (λ place. place ≡ whole) }
{
    let place = Vec::from_slice(alloc, b"-")?;
    Ok(Text::from_vec(place))
}

#[tactic(auto, unfolding(crate::specs::File::file_of))]
fn file(alloc: Global, value: &Value) -> Result<MofFile, MofFault>
    ensures { MeetsWalk seen result (file_of (view value.now)) }
{
    if value.is_object() {
        members(alloc, value)
    } else {
        Err(MofFault::Shape {
            place: whole(alloc)?,
        })
    }
}

#[tactic(auto, unfolding(crate::specs::File::members_of))]
fn members(alloc: Global, value: &Value) -> Result<MofFile, MofFault>
    ensures { MeetsWalk seen result (members_of (view value.now)) }
{
    version_field(alloc, "version", value)?;
    let variables = variables_field(alloc, "variables", value)?;
    parts(alloc, variables, value)
}

#[tactic(auto, unfolding(crate::specs::File::parts_of))]
fn parts(alloc: Global, variables: IndexSet<Name>, value: &Value) -> Result<MofFile, MofFault>
    ensures { MeetsWalk seen result (parts_of variables.keys (view value.now)) }
{
    let objective = optional_objective(alloc, &variables, value)?;
    let constraints = optional_constraints(alloc, &variables, value)?;
    Ok(MofFile {
        variables,
        objective,
        constraints,
    })
}
