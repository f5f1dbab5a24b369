//! Functions as the sums of terms.
ghost use Rattle.std.specs.Prelude.{◌≡◌, IfOk, Some, None, if◌then◌else◌};
ghost use Rattle.script_core.specs.Sums.{function_of, functions_of, with_term};

use crate::terms::{Term, Terms};
use lists::Sequence;
use named_aff::{AffSum, NamedAff, NamedVec};
use ratio_core::{Memory, Ratio};
use std::alloc::Global;

/// The function of each component, or none where a sum exceeds 128 bits.
pub fn sum_components(
    alloc: Global,
    components: Sequence<Terms>,
) -> Result<Option<NamedVec>, Memory>
    ensures { IfOk result (λ functions. functions ≡ functions_of components) }
{
    let mut functions = Vec::new(alloc);
    for terms in components.into_vec() {
        let Some(function) = sum_terms(alloc, terms)? else {
            return Ok(None);
        };
        functions.push(function)?;
    }
    Ok(Some(Sequence::from_vec(functions)))
}

/// The sum of the terms from the left, or none where a sum exceeds 128 bits.
#[tactic(auto, unfolding(crate::specs::Sums::function_of))]
pub fn sum_terms(alloc: Global, terms: Terms) -> Result<Option<NamedAff>, Memory>
    ensures { IfOk result (λ function. function ≡ function_of terms) }
{
    let mut sum = AffSum::of_constant(alloc, Ratio::zero());
    for term in terms.into_vec() {
        if !add(&mut sum, term)? {
            drop(sum);
            return Ok(None);
        }
    }
    let function = sum.into_function(alloc)?;
    Ok(Some(function))
}

// Adds a term, and says whether the sum fits.
fn add(sum: &mut AffSum, term: Term) -> Result<bool, Memory>
    ensures { IfOk result (λ fits. with_term sum.old term
        ≡ (if fits then Some sum.new else None)) }
{
    match term {
        Term::Linear(term) => sum.add_term(term),
        Term::Constant(value) => Ok(sum.add_constant(&value)),
    }
}
