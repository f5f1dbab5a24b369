//! Variables by name, and terms.
ghost use Rattle.std.specs.Prelude.{◌≡◌, IfOk, None, Some, if◌then◌else◌};
ghost use Rattle.serde_json.specs.View.{view};
ghost use Rattle.mof_file.specs.Functions.{is_known, linear_term_of, term_of, variable_of};
ghost use Rattle.mof_values.specs.Values.{a_number, field, walk_at};
ghost use Rattle.mof_values.specs.Walked.{MeetsWalk};

use indexmap::IndexSet;
use lists::Memory;
use mof_values::{MofFault, at_key, field, given_name, here, number_field, require_object, text};
use name_index::Name;
use named_aff::NamedTerm;
use ratio_core::Ratio;
use serde_json::Value;
use std::alloc::Global;

/// The value has to be the name of a variable of the file.
#[tactic(auto, unfolding(crate::specs::Functions::variable_of))]
pub(crate) fn variable(
    alloc: Global,
    known: &IndexSet<Name>,
    value: &Value,
) -> Result<Name, MofFault>
    ensures { MeetsWalk (λ name. name) result (variable_of known.now.keys (view value.now)) }
{
    let text = text(alloc, value)?;
    match known_name(alloc, known, text)? {
        Some(name) => Ok(name),
        None => Err(MofFault::UnknownName { place: here(alloc) }),
    }
}

// The text as a name, where a variable of the file has it.
fn known_name(alloc: Global, known: &IndexSet<Name>, text: &str) -> Result<Option<Name>, Memory>
    ensures { IfOk result (λ name. name
        ≡ (if is_known known.now.keys text.now then Some text.now else None)) }
{
    match given_name(alloc, text)? {
        Some(name) if known.contains(&name) => Ok(Some(name)),
        _ => Ok(None),
    }
}

/// The variable at a key.
#[tactic(auto, using(mof_values::specs::WalkLaws::walk_at_steps))]
pub(crate) fn variable_field(
    alloc: Global,
    known: &IndexSet<Name>,
    name: &str,
    value: &Value,
) -> Result<Name, MofFault>
    ensures { MeetsWalk (λ name. name) result
        (walk_at (variable_of known.now.keys) name.now (view value.now)) }
{
    let found = field(alloc, name, value)?;
    at_key(alloc, name, variable(alloc, known, found))
}

/// A coefficient and its variable.
#[tactic(auto, unfolding(crate::specs::Functions::term_of))]
pub(crate) fn term(
    alloc: Global,
    known: &IndexSet<Name>,
    value: &Value,
) -> Result<NamedTerm, MofFault>
    ensures { MeetsWalk (λ term. term) result (term_of known.now.keys (view value.now)) }
{
    require_object(alloc, value)?;
    linear_term(alloc, known, value)
}

#[tactic(auto, unfolding(crate::specs::Functions::linear_term_of))]
fn linear_term(alloc: Global, known: &IndexSet<Name>, value: &Value) -> Result<NamedTerm, MofFault>
    ensures { MeetsWalk (λ term. term) result (linear_term_of known.now.keys (view value.now)) }
{
    let coefficient = coefficient(alloc, value)?;
    let variable = variable_field(alloc, known, "variable", value)?;
    Ok(NamedTerm {
        variable,
        coefficient,
    })
}

// The coefficient of a term.
fn coefficient(alloc: Global, value: &Value) -> Result<Ratio, MofFault>
    ensures { MeetsWalk (λ number. number) result (field a_number "coefficient" (view value.now)) }
{
    number_field(alloc, "coefficient", value)
}
