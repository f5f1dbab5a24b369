//! The version of the format.
ghost use Rattle.std.specs.Prelude.{⊤};
ghost use Rattle.serde_json.specs.View.{view};
ghost use Rattle.mof_file.specs.File.{major_of, version_of};
ghost use Rattle.mof_values.specs.Values.{walk_at};
ghost use Rattle.mof_values.specs.Walked.{MeetsWalk};

use mof_values::{MofFault, at_key, field, here, integer, integer_field, require_object};
use serde_json::Value;
use std::alloc::Global;

/// The version at a key, whose major number has to be 1.
#[tactic(auto, using(mof_values::specs::WalkLaws::walk_at_steps))]
pub(crate) fn version_field(alloc: Global, name: &str, value: &Value) -> Result<(), MofFault>
    ensures { MeetsWalk (λ _. tt) result (walk_at version_of name.now (view value.now)) }
{
    let found = field(alloc, name, value)?;
    at_key(alloc, name, version(alloc, found))
}

#[tactic(auto, unfolding(crate::specs::File::version_of))]
fn version(alloc: Global, value: &Value) -> Result<(), MofFault>
    ensures { MeetsWalk (λ _. tt) result (version_of (view value.now)) }
{
    require_object(alloc, value)?;
    major_field(alloc, "major", value)?;
    let _minor = integer_field(alloc, "minor", value)?;
    Ok(())
}

#[tactic(auto, using(mof_values::specs::WalkLaws::walk_at_steps))]
fn major_field(alloc: Global, name: &str, value: &Value) -> Result<(), MofFault>
    ensures { MeetsWalk (λ _. tt) result (walk_at major_of name.now (view value.now)) }
{
    let found = field(alloc, name, value)?;
    at_key(alloc, name, major(alloc, found))
}

#[tactic(auto, unfolding(crate::specs::File::major_of))]
fn major(alloc: Global, value: &Value) -> Result<(), MofFault>
    ensures { MeetsWalk (λ _. tt) result (major_of (view value.now)) }
{
    let major = integer(alloc, value)?;
    if major == 1 {
        Ok(())
    } else {
        Err(MofFault::Version { place: here(alloc) })
    }
}
