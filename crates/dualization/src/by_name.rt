//! Functions of the dual's variables by their names.
ghost use Rattle.std.specs.Prelude.{◌≡◌, ◌∷◌, ◌++◌, ◌≤◌, [], IfOk, OnOk, length};
ghost use Rattle.std.specs.List.{IsDistinct};
ghost use Rattle.std.specs.Str.{bytes_eq};
ghost use Rattle.named_aff.specs.Distinct.{HasDistinctNames};
ghost use Rattle.dualization.specs.ByName.{named_terms, term_of};

use lists::{Duplicate, Memory};
use name_index::Name;
use named_aff::{NamedAff, NamedTerm, NamedTerms};
use ratio_core::Ratio;
use std::alloc::Global;

/// The function with these coefficients of the variables with these names, one after another.
pub(crate) fn named_function(
    alloc: Global,
    names: &[Name],
    coefficients: &[Ratio],
    constant: Ratio,
) -> Result<NamedAff, Memory>
    requires distinct { IsDistinct bytes_eq names.now }
    requires size { length coefficients.now ≤ length names.now }
    ensures { IfOk result (λ f. f
        ≡ record { terms = named_terms names.now coefficients.now; constant = constant }) }
{
    let mut terms = NamedTerms::new(alloc);
    for (i, coefficient) in coefficients.iter().enumerate() {
        push_nonzero(&mut terms, &names[i], coefficient)?;
    }
    Ok(NamedAff { terms, constant })
}

// Appends a term, where its coefficient isn't 0.
fn push_nonzero(terms: &mut NamedTerms, name: &Name, coefficient: &Ratio) -> Result<(), Memory>
    requires { HasDistinctNames (terms.old
        ++ record { variable = name.now; coefficient = coefficient.now } ∷ []) }
    ensures { OnOk result (terms.new ≡ terms.old ++ term_of name.now coefficient.now) }
{
    if coefficient.is_zero() {
        return Ok(());
    }
    let variable = name.copy()?;
    let term = NamedTerm {
        variable,
        coefficient: *coefficient,
    };
    put(terms, term)?;
    Ok(())
}

fn put(terms: &mut NamedTerms, term: NamedTerm) -> Result<(), Memory>
    requires { HasDistinctNames (terms.old ++ term ∷ []) }
    ensures { OnOk result (terms.new ≡ terms.old ++ term ∷ []) }
{
    match terms.push(term) {
        Ok(()) => Ok(()),
        Err(_) => Err(Memory),
    }
}
