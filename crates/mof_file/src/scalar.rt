//! Affine functions of numbers.
ghost use Rattle.serde_json.specs.View.{view};
ghost use Rattle.mof_file.specs.Functions.{affine_of, terms_of};
ghost use Rattle.mof_values.specs.Values.{walk_at};
ghost use Rattle.mof_values.specs.Walked.{MeetsWalk};

use crate::items::{AddItem, add_each};
use crate::terms::term;
use indexmap::IndexSet;
use mof_values::{MofFault, array, at_key, field, here, number_field};
use name_index::Name;
use named_aff::{NamedAff, NamedTerms, TermSum};
use serde_json::Value;
use std::alloc::Global;

/// The function that a value says.
#[tactic(auto, unfolding(crate::specs::Functions::affine_of))]
pub(crate) fn affine(
    alloc: Global,
    known: &IndexSet<Name>,
    value: &Value,
) -> Result<NamedAff, MofFault>
    ensures { MeetsWalk (λ func. func) result (affine_of known.now.keys (view value.now)) }
{
    let terms = terms_field(alloc, known, "terms", value)?;
    let constant = number_field(alloc, "constant", value)?;
    Ok(NamedAff { terms, constant })
}

#[tactic(auto, using(mof_values::specs::WalkLaws::walk_at_steps))]
fn terms_field(
    alloc: Global,
    known: &IndexSet<Name>,
    name: &str,
    value: &Value,
) -> Result<NamedTerms, MofFault>
    ensures { MeetsWalk (λ terms. terms) result
        (walk_at (terms_of known.now.keys) name.now (view value.now)) }
{
    let found = field(alloc, name, value)?;
    at_key(alloc, name, term_list(alloc, known, found))
}

#[tactic(auto, unfolding(crate::specs::Functions::terms_of))]
fn term_list(alloc: Global, known: &IndexSet<Name>, value: &Value) -> Result<NamedTerms, MofFault>
    ensures { MeetsWalk (λ terms. terms) result (terms_of known.now.keys (view value.now)) }
{
    let items = array(alloc, value)?;
    let mut sum = TermSum::with_capacity(alloc, items.len())?;
    add_each(alloc, known, &mut sum, items)?;
    let terms = sum.into_terms(alloc)?;
    Ok(terms)
}

impl AddItem<IndexSet<Name>> for TermSum {
    ghost use Rattle.std.specs.Prelude.{List};
    ghost use Rattle.named_aff.specs.declared.terms.NamedTerm.{NamedTerm};
    ghost use Rattle.mof_file.specs.Functions.{add_term};

    ghost Seen = { List NamedTerm };

    ghost seen = { λ sum. sum };

    ghost with_item = { λ known. add_term known.keys };

    #[tactic(auto, unfolding(crate::specs::Functions::add_term))]
    fn add_item(
        &mut self,
        alloc: Global,
        known: &IndexSet<Name>,
        item: &Value,
    ) -> Result<(), MofFault> {
        let term = term(alloc, known, item)?;
        if self.add(term)? {
            Ok(())
        } else {
            Err(MofFault::BadNumber { place: here(alloc) })
        }
    }
}
