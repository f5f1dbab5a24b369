//! Texts, and those that are names.
ghost use Rattle.std.specs.Prelude.{◌≡◌, IfOk, bytes_eq};
ghost use Rattle.serde_json.specs.View.{view};
ghost use Rattle.mof_values.specs.Sets.{kind_fault, kind_of};
ghost use Rattle.mof_values.specs.Values.{a_name, a_text, name_of, walk_at};
ghost use Rattle.mof_values.specs.Walked.{MeetsWalk, TellsMofFault};

use crate::fault::{MofFault, here};
use crate::fields::{at_key, field, require_object};
use lists::Memory;
use name_index::{Name, NameFault};
use serde_json::Value;
use std::alloc::Global;

/// Whether a text is this word.
pub fn is(text: &str, word: &str) -> bool
    ensures { result ≡ bytes_eq text.now word.now }
{
    text == word
}

/// The value has to be a text.
#[tactic(auto, unfolding(crate::specs::Values::a_text))]
pub fn text<'v>(alloc: Global, value: &'v Value) -> Result<&'v str, MofFault>
    ensures { MeetsWalk (λ text. text.now) result (a_text (view value.now)) }
{
    match value.as_str() {
        Some(text) => Ok(text),
        None => Err(MofFault::Shape { place: here(alloc) }),
    }
}

#[tactic(auto, using(crate::specs::WalkLaws::walk_at_steps))]
fn text_field<'v>(alloc: Global, name: &str, value: &'v Value) -> Result<&'v str, MofFault>
    ensures { MeetsWalk (λ text. text.now) result (walk_at a_text name.now (view value.now)) }
{
    let found = field(alloc, name, value)?;
    at_key(alloc, name, text(alloc, found))
}

/// The text as a name, where a variable or a row can have it.
pub fn given_name(alloc: Global, text: &str) -> Result<Option<Name>, Memory>
    ensures { IfOk result (λ name. name ≡ name_of text.now) }
{
    match Name::new(alloc, text) {
        Ok(name) => Ok(Some(name)),
        Err(NameFault::BadName) => Ok(None),
        Err(NameFault::Memory) => Err(Memory),
    }
}

/// The value has to be a name that a variable can have.
#[tactic(auto, unfolding(crate::specs::Values::a_name))]
pub fn name(alloc: Global, value: &Value) -> Result<Name, MofFault>
    ensures { MeetsWalk (λ name. name) result (a_name (view value.now)) }
{
    let text = text(alloc, value)?;
    match given_name(alloc, text)? {
        Some(name) => Ok(name),
        None => Err(MofFault::Shape { place: here(alloc) }),
    }
}

/// The type of a function or a set, which has to be an object.
#[tactic(auto, unfolding(crate::specs::Sets::kind_of))]
pub fn kind<'v>(alloc: Global, value: &'v Value) -> Result<&'v str, MofFault>
    ensures { MeetsWalk (λ kind. kind.now) result (kind_of (view value.now)) }
{
    require_object(alloc, value)?;
    text_field(alloc, "type", value)
}

/// The fault of a function or a set whose type isn't read.
pub fn unknown_kind(alloc: Global) -> MofFault
    ensures { TellsMofFault result kind_fault }
{
    MofFault::UnknownKind { place: here(alloc) }.under_key(alloc, "type")
}
