//! The terms of functions, token by token.
ghost use Rattle.std.specs.Prelude.{◌≡◌, IfOk, map};
ghost use Rattle.script_core.specs.Terms.{component_terms_of, components_of, function_terms_of, term_of, terms_of};

use lists::Sequence;
use name_index::Name;
use named_aff::NamedTerm;
use ratio_core::{Memory, Ratio};
use script_tokens::{Tokens, is, parted_at};
use std::alloc::Global;
use std::mem;

/// A term of a function.
#[derive(Drop)]
pub enum Term {
    /// A variable with its coefficient.
    Linear(NamedTerm),
    Constant(Ratio),
}

/// The terms of a function.
pub type Terms = Sequence<Term>;

/// `: TERMS`
#[tactic(auto, unfolding(crate::specs::Terms::function_terms_of))]
pub fn function_terms(alloc: Global, mut tokens: Tokens<'_>) -> Result<Option<Terms>, Memory>
    ensures { IfOk result (λ terms. terms ≡ function_terms_of tokens.entry) }
{
    let Some(b":") = tokens.next() else {
        return Ok(None);
    };
    read_terms(alloc, tokens)
}

/// `: TERMS ; TERMS ..`
#[tactic(auto, unfolding(crate::specs::Terms::component_terms_of))]
pub fn component_terms(
    alloc: Global,
    mut tokens: Tokens<'_>,
) -> Result<Option<Sequence<Terms>>, Memory>
    ensures { IfOk result (λ components. components ≡ component_terms_of tokens.entry) }
{
    let Some(b":") = tokens.next() else {
        return Ok(None);
    };
    read_components(alloc, tokens)
}

/// Terms up to the end.
pub fn read_terms(alloc: Global, tokens: Tokens<'_>) -> Result<Option<Terms>, Memory>
    ensures { IfOk result (λ terms. terms ≡ terms_of tokens.entry) }
{
    let mut terms = Vec::new(alloc);
    for token in tokens {
        let Some(term) = read_term(alloc, token)? else {
            return Ok(None);
        };
        terms.push(term)?;
    }
    Ok(Some(Sequence::from_vec(terms)))
}

// The terms of each component, with a token `;` between the components.
fn read_components(alloc: Global, tokens: Tokens<'_>) -> Result<Option<Sequence<Terms>>, Memory>
    ensures { IfOk result (λ components. components ≡ components_of tokens.entry) }
{
    let mut components = Vec::new(alloc);
    let mut terms = Vec::new(alloc);
    for token in tokens {
        if is(token, ";") {
            let whole = mem::replace(&mut terms, Vec::new(alloc));
            components.push(Sequence::from_vec(whole))?;
        } else {
            let Some(term) = read_term(alloc, token)? else {
                return Ok(None);
            };
            terms.push(term)?;
        }
    }
    components.push(Sequence::from_vec(terms))?;
    Ok(Some(Sequence::from_vec(components)))
}

// `Q*X`, parted at the first star, or `Q`.
#[tactic(auto, unfolding(crate::specs::Terms::term_of))]
fn read_term(alloc: Global, token: &[u8]) -> Result<Option<Term>, Memory>
    ensures { IfOk result (λ term. term ≡ term_of token.now) }
{
    if !token.contains(&b'*') {
        return Ok(Ratio::read(token).map(Term::Constant));
    }
    let (coefficient, variable) = parted_at(token, b'*');
    let Some(coefficient) = Ratio::read(coefficient) else {
        return Ok(None);
    };
    let Some(variable) = Name::unescape(alloc, variable)? else {
        return Ok(None);
    };
    Ok(Some(Term::Linear(NamedTerm {
        variable,
        coefficient,
    })))
}
