//! Terms that are added up by the names of their variables.
ghost use Rattle.std.specs.Prelude.{◌≡◌, [], IfOk, Some, None, false, if◌then◌else◌};
ghost use Rattle.std.specs.Str.{bytes_eq};
ghost use Rattle.indexmap.specs.IndexMap.{get_by};
ghost use Rattle.named_aff.specs.Distinct.{HasDistinctNames};
ghost use Rattle.named_aff.specs.Entries.{coefficient_with, has_variable, terms_in, terms_kept};
ghost use Rattle.named_aff.specs.Sums.{sum_of, with_term};

use crate::{NamedTerm, NamedTerms};
use indexmap::IndexMap;
use lists::{Duplicate, Memory};
use name_index::Name;
use ratio_core::Ratio;
use std::alloc::Global;
use std::marker::Model;

/// The most terms that are searched one by one, without a table of their variables.
const FEW: usize = 16;

// Few terms, or any with a table of their variables.
#[derive(Drop)]
pub(crate) enum Kept {
    Few(NamedTerms),
    Many(IndexMap<Name, Ratio>),
}

/// Terms of distinct variables in the making, in the order of first mention, which contracts see
/// as the list of them. Adding a term costs the same however many there are.
#[derive(Drop)]
pub struct TermSum {
    alloc: Global,
    kept: Kept,
}

impl Model for TermSum {
    ghost use Rattle.std.specs.Prelude.{List};
    ghost use Rattle.named_aff.specs.declared.terms.NamedTerm.{NamedTerm};
    ghost use Rattle.named_aff.specs.Entries.{terms_kept};

    ghost Value = { List NamedTerm };

    ghost view = { λ sum. terms_kept sum.kept };
}

impl TermSum {
    /// No terms, which takes no memory.
    pub fn new(alloc: Global) -> TermSum
        ensures { result ≡ [] }
    {
        TermSum {
            alloc,
            kept: Kept::Few(NamedTerms::new(alloc)),
        }
    }

    /// No terms, with room for this number as long as they are few.
    pub fn with_capacity(alloc: Global, count: usize) -> Result<TermSum, Memory>
        ensures { IfOk result (λ sum. sum ≡ []) }
    {
        let terms = NamedTerms::with_capacity(alloc, count.min(FEW))?;
        Ok(TermSum {
            alloc,
            kept: Kept::Few(terms),
        })
    }

    /// Adds a term to that of its variable, or puts it last, and says whether the sum fits.
    pub fn add(&mut self, term: NamedTerm) -> Result<bool, Memory>
        ensures { IfOk result (λ fits. with_term self.old term
            ≡ (if fits then Some self.new else None)) }
    {
        add_kept(self.alloc, &mut self.kept, term)
    }

    /// The terms in their order.
    pub fn into_terms(self, alloc: Global) -> Result<NamedTerms, Memory>
        ensures { IfOk result (λ terms. terms ≡ self) }
    {
        match self.kept {
            Kept::Few(terms) => Ok(terms),
            Kept::Many(coefficients) => named_terms(alloc, coefficients),
        }
    }
}

// Adds a term to that of its variable, or puts it last, and says whether the sum fits. A table is
// made as soon as there are many terms, or two of one variable.
fn add_kept(alloc: Global, kept: &mut Kept, term: NamedTerm) -> Result<bool, Memory>
    ensures { IfOk result (λ fits. with_term (terms_kept kept.old) term
        ≡ (if fits then Some (terms_kept kept.new) else None)) }
{
    match kept {
        Kept::Few(terms) => {
            let listed = terms.as_slice();
            if listed.len() < FEW && !has_variable(listed, &term.variable) {
                return put_last(terms, term);
            }
            let mut coefficients = coefficients_of(alloc, listed)?;
            let fits = add_term(&mut coefficients, term)?;
            *kept = Kept::Many(coefficients);
            Ok(fits)
        }
        Kept::Many(coefficients) => add_term(coefficients, term),
    }
}

// Whether one of the terms is of this variable.
fn has_variable(terms: &[NamedTerm], name: &Name) -> bool
    ensures { result ≡ has_variable terms.now name.now }
{
    for term in terms {
        if *name == term.variable {
            return true;
        }
    }
    false
}

// Puts a term last, of a variable that has none yet, and says that it fits.
#[tactic(auto, using(crate::proofs::Linear::with_term_last))]
fn put_last(terms: &mut NamedTerms, term: NamedTerm) -> Result<bool, Memory>
    requires distinct { HasDistinctNames terms.old }
    requires none { has_variable terms.old term.variable ≡ false }
    ensures { IfOk result (λ fits. with_term terms.old term
        ≡ (if fits then Some terms.new else None)) }
{
    if terms.push(term).is_err() {
        return Err(Memory);
    }
    Ok(true)
}

// The coefficients of terms of distinct variables.
fn coefficients_of(alloc: Global, terms: &[NamedTerm]) -> Result<IndexMap<Name, Ratio>, Memory>
    requires { HasDistinctNames terms.now }
    ensures { IfOk result (λ coefficients. terms_in coefficients.entries ≡ terms.now) }
{
    let mut coefficients = IndexMap::new(alloc);
    for term in terms {
        coefficients.insert(term.variable.copy()?, term.coefficient)?;
    }
    Ok(coefficients)
}

// Adds a term to that of its variable, or puts it last, and says whether the sum fits.
fn add_term(coefficients: &mut IndexMap<Name, Ratio>, term: NamedTerm) -> Result<bool, Memory>
    ensures { IfOk result (λ fits. with_term (terms_in coefficients.old.entries) term
        ≡ (if fits then Some (terms_in coefficients.new.entries) else None)) }
{
    let Some(sum) = coefficient_with(coefficients, &term) else {
        return Ok(false);
    };
    coefficients.insert(term.variable, sum)?;
    Ok(true)
}

// The coefficient of a term's variable with the term's own, or none where the sum doesn't fit.
fn coefficient_with(coefficients: &IndexMap<Name, Ratio>, term: &NamedTerm) -> Option<Ratio>
    ensures { result ≡ coefficient_with
        (get_by (bytes_eq term.now.variable) coefficients.now) term.now.coefficient }
{
    match coefficients.get(&term.variable) {
        None => Some(term.coefficient),
        Some(coefficient) => added(coefficient, &term.coefficient),
    }
}

/// The sum of two numbers, or none where it doesn't fit.
pub(crate) fn added(first: &Ratio, second: &Ratio) -> Option<Ratio>
    ensures { result ≡ sum_of first.now second.now }
{
    first.add(second).ok()
}

// The terms in their order.
fn named_terms(alloc: Global, coefficients: IndexMap<Name, Ratio>) -> Result<NamedTerms, Memory>
    ensures { IfOk result (λ terms. terms ≡ terms_in coefficients.entries) }
{
    let mut terms = NamedTerms::new(alloc);
    for (variable, coefficient) in coefficients {
        let term = NamedTerm {
            variable,
            coefficient,
        };
        if terms.push(term).is_err() {
            return Err(Memory);
        }
    }
    Ok(terms)
}
