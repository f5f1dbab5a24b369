//! Names of variables, rows and files, alone and with a number.
ghost use Rattle.std.specs.Prelude.{◌≡◌, IfOk};
ghost use Rattle.script_core.specs.Names.{last_name_of, last_named_number_of, last_two_names_of, names_of};

use lists::Sequence;
use name_index::{Name, Names};
use ratio_core::{Memory, Ratio};
use script_tokens::Tokens;
use std::alloc::Global;

/// Names up to the end.
pub fn read_names(alloc: Global, tokens: Tokens<'_>) -> Result<Option<Names>, Memory>
    ensures { IfOk result (λ names. names ≡ names_of tokens.entry) }
{
    let mut names = Vec::new(alloc);
    for token in tokens {
        let Some(name) = Name::unescape(alloc, token)? else {
            return Ok(None);
        };
        names.push(name)?;
    }
    Ok(Some(Sequence::from_vec(names)))
}

/// A name that nothing follows.
#[tactic(auto, unfolding(crate::specs::Names::last_name_of))]
pub fn last_name(alloc: Global, mut tokens: Tokens<'_>) -> Result<Option<Name>, Memory>
    ensures { IfOk result (λ name. name ≡ last_name_of tokens.entry) }
{
    let (Some(token), None) = (tokens.next(), tokens.next()) else {
        return Ok(None);
    };
    Name::unescape(alloc, token)
}

/// Two names that nothing follows.
#[tactic(auto, unfolding(crate::specs::Names::last_two_names_of))]
pub fn last_two_names(alloc: Global, mut tokens: Tokens<'_>) -> Result<Option<(Name, Name)>, Memory>
    ensures { IfOk result (λ names. names ≡ last_two_names_of tokens.entry) }
{
    let (Some(token), Some(other), None) = (tokens.next(), tokens.next(), tokens.next()) else {
        return Ok(None);
    };
    let Some(first) = Name::unescape(alloc, token)? else {
        return Ok(None);
    };
    let Some(second) = Name::unescape(alloc, other)? else {
        return Ok(None);
    };
    Ok(Some((first, second)))
}

/// A name and a number that nothing follows.
#[tactic(auto, unfolding(crate::specs::Names::last_named_number_of))]
pub fn last_named_number(
    alloc: Global,
    mut tokens: Tokens<'_>,
) -> Result<Option<(Name, Ratio)>, Memory>
    ensures { IfOk result (λ named. named ≡ last_named_number_of tokens.entry) }
{
    let (Some(token), Some(number), None) = (tokens.next(), tokens.next(), tokens.next()) else {
        return Ok(None);
    };
    let Some(name) = Name::unescape(alloc, token)? else {
        return Ok(None);
    };
    let Some(value) = Ratio::read(number) else {
        return Ok(None);
    };
    Ok(Some((name, value)))
}
