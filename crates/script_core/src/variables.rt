//! Lines that create variables.
ghost use Rattle.std.specs.Prelude.{◌≡◌, IfOk};
ghost use Rattle.script_core.specs.Variables.{creation_set_of, variable_form, group_form};

use crate::names::read_names;
use crate::reading::{LineReading, alone, makes};
use crate::sets::{dimension, last_relation, vector_set};
use name_index::{Name, Names};
use ratio_core::Memory;
use script_tokens::{Tokens, is};
use set_core::Set;
use std::alloc::Global;
use user_model::Edit;

/// `var X free`, `var X REL`
#[tactic(auto, unfolding(crate::specs::Variables::variable_form))]
pub fn variable(alloc: Global, mut tokens: Tokens<'_>) -> Result<Option<LineReading>, Memory>
    ensures { IfOk result (λ reading. reading ≡ variable_form tokens.entry) }
{
    let Some(name) = tokens.next() else {
        return Ok(None);
    };
    let Some(name) = Name::unescape(alloc, name)? else {
        return Ok(None);
    };
    let Some(set) = creation_set(tokens) else {
        return Ok(None);
    };
    let names = Names::from_vec(vec![in alloc; name]?);
    Ok(makes(Edit::AddGroup { names, set }))
}

/// `vars SET NAMES`
#[tactic(auto, unfolding(crate::specs::Variables::group_form))]
pub fn group(alloc: Global, mut tokens: Tokens<'_>) -> Result<Option<LineReading>, Memory>
    ensures { IfOk result (λ reading. reading ≡ group_form tokens.entry) }
{
    let Some(word) = tokens.next() else {
        return Ok(None);
    };
    let Some(names) = read_names(alloc, tokens)? else {
        return Ok(None);
    };
    let Some(set) = vector_set(word, dimension(names.len())?) else {
        return Ok(None);
    };
    Ok(makes(Edit::AddGroup { names, set }))
}

// `free`, which is one real number, or a relation.
#[tactic(auto, unfolding(crate::specs::Variables::creation_set_of))]
fn creation_set(mut tokens: Tokens<'_>) -> Option<Set>
    ensures { result ≡ creation_set_of tokens.entry }
{
    let word = tokens.next()?;
    if is(word, "free") {
        alone(Set::Reals { dimension: 1 }, tokens)
    } else {
        last_relation(word, tokens)
    }
}
