// Functions by the names of their variables.
use lists::{Duplicate, Memory};
use name_index::Name;
use named_aff::{NamedAff, NamedTerm, NamedTerms, NamedVec};
use ratio_core::Ratio;
use std::alloc::Global;
use test_support::Page;

/// Copies of the term x, and of a function that is 1 everywhere.
pub fn show(page: &mut Page) {
    page.line("# functions by names");
    if let Ok(x) = Name::new(page.alloc(), "x") {
        show_term(page, x);
    }
    let (terms, constant) = (NamedTerms::new(page.alloc()), Ratio::one());
    show_function(page, NamedAff { terms, constant });
}

fn show_function(page: &mut Page, f: NamedAff) {
    let mut functions = NamedVec::new(page.alloc());
    if functions.push(f).is_ok() {
        copy_functions(page, &functions);
    }
}

fn copy_functions(page: &mut Page, functions: &NamedVec) {
    page.line(format_args!("functions: {:?}", functions.copy()));
}

/// A list of one term, x.
fn one_term(alloc: Global, x: Name) -> Result<NamedTerms, Memory> {
    let mut terms = NamedTerms::new(alloc);
    let term = NamedTerm {
        variable: x,
        coefficient: Ratio::one(),
    };
    match terms.push(term) {
        Ok(()) => Ok(terms),
        Err(_) => Err(Memory),
    }
}

fn show_term(page: &mut Page, x: Name) {
    if let Ok(terms) = one_term(page.alloc(), x) {
        copy_terms(page, &terms);
    }
}

fn copy_terms(page: &mut Page, terms: &NamedTerms) {
    if let Ok(copy) = terms.copy() {
        show_terms(page, copy.as_slice());
    }
}

fn show_terms(page: &mut Page, terms: &[NamedTerm]) {
    for term in terms {
        page.line(format_args!("term: {} {:?}", term.coefficient, term.variable.text()));
    }
}
