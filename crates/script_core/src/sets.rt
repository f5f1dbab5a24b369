//! Sets of numbers and of vectors.
ghost use Rattle.std.specs.Prelude.{◌≡◌, IfOk, option_map};
ghost use Rattle.script_core.specs.Sets.{first_number, last_named_relation_of, last_relation_of, relation_of, vector_set_of};

use crate::reading::alone;
use name_index::Name;
use ratio_core::{Memory, Ratio};
use script_tokens::{Tokens, is};
use set_core::Set;
use std::alloc::Global;

/// A name and a relation that nothing follows.
#[tactic(auto, unfolding(crate::specs::Sets::last_named_relation_of))]
pub fn last_named_relation(
    alloc: Global,
    mut tokens: Tokens<'_>,
) -> Result<Option<(Name, Set)>, Memory>
    ensures { IfOk result (λ named. named ≡ last_named_relation_of tokens.entry) }
{
    let (Some(token), Some(word)) = (tokens.next(), tokens.next()) else {
        return Ok(None);
    };
    let Some(name) = Name::unescape(alloc, token)? else {
        return Ok(None);
    };
    let Some(set) = last_relation(word, tokens) else {
        return Ok(None);
    };
    Ok(Some((name, set)))
}

/// A relation that nothing follows.
#[tactic(auto, unfolding(crate::specs::Sets::last_relation_of))]
pub fn last_relation(word: &[u8], mut tokens: Tokens<'_>) -> Option<Set>
    ensures { result ≡ last_relation_of word.now tokens.entry }
{
    let set = relation(word, &mut tokens)?;
    alone(set, tokens)
}

/// The set of a relation `>= Q`, `<= Q`, `== Q` or `in L U`, whose first word is given.
#[tactic(auto, unfolding(crate::specs::Sets::relation_of))]
pub fn relation(word: &[u8], tokens: &mut Tokens<'_>) -> Option<Set>
    ensures { option_map (λ set. (set, tokens.new)) result ≡ relation_of word.now tokens.old }
{
    if is(word, ">=") {
        let lower = first_number(tokens)?;
        Some(Set::GreaterThan { lower })
    } else if is(word, "<=") {
        let upper = first_number(tokens)?;
        Some(Set::LessThan { upper })
    } else if is(word, "==") {
        let value = first_number(tokens)?;
        Some(Set::EqualTo { value })
    } else if is(word, "in") {
        let lower = first_number(tokens)?;
        let upper = first_number(tokens)?;
        Some(Set::Interval { lower, upper })
    } else {
        None
    }
}

#[tactic(auto, unfolding(crate::specs::Sets::first_number))]
fn first_number(tokens: &mut Tokens<'_>) -> Option<Ratio>
    ensures { option_map (λ number. (number, tokens.new)) result ≡ first_number tokens.old }
{
    Ratio::read(tokens.next()?)
}

/// The set of vectors with this name and dimension.
#[tactic(auto, unfolding(crate::specs::Sets::vector_set_of))]
pub fn vector_set(word: &[u8], dimension: u32) -> Option<Set>
    ensures { result ≡ vector_set_of word.now dimension }
{
    if is(word, "reals") {
        Some(Set::Reals { dimension })
    } else if is(word, "zeros") {
        Some(Set::Zeros { dimension })
    } else if is(word, "nonneg") {
        Some(Set::Nonnegatives { dimension })
    } else if is(word, "nonpos") {
        Some(Set::Nonpositives { dimension })
    } else if is(word, "norminf") {
        Some(Set::NormInfinityCone { dimension })
    } else if is(word, "normone") {
        Some(Set::NormOneCone { dimension })
    } else {
        None
    }
}

/// The dimension for a number of components. More than a dimension counts find no memory.
pub fn dimension(components: usize) -> Result<u32, Memory>
    ensures { IfOk result (λ dimension. dimension ≡ components) }
{
    u32::try_from(components).map_err(|_| Memory)
}
