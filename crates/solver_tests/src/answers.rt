// Forms, and answers read back.
ghost use Rattle.std.specs.Prelude.{◌≡◌};
ghost use Rattle.simplex_core.specs.StdForm.{IsWellShaped};
ghost use Rattle.std_form.specs.Indexed.{form_of};

use crate::forms::ratios;
use ratio_core::Ratios;
use simplex_core::{Basis, SolverAnswer, StdForm, solve};
use solver_store::SolverModel;
use std::alloc::Global;
use std_form::{AddressMap, build, read_back};
use test_support::Page;

/// Prints the model's form and what is read back of its answer, or why there is none.
pub fn show(page: &mut Page, solver: &SolverModel, map: &AddressMap) {
    match build(page.alloc(), solver, map) {
        Ok(form) => show_solved(page, solver, map, &form),
        Err(fault) => page.line(format_args!("no form: {fault:?}")),
    }
}

fn show_solved(page: &mut Page, solver: &SolverModel, map: &AddressMap, form: &StdForm)
    requires shaped { IsWellShaped form.now }
    requires built { form.now ≡ form_of map.now solver.now.leaves }
{
    page.line(format_args!("{form:?}"));
    match solve(page.alloc(), form, 100) {
        Ok(answer) => show_read(page, solver, map, form, &answer),
        Err(fault) => page.line(format_args!("no answer: {fault:?}")),
    }
}

fn show_read(
    page: &mut Page,
    solver: &SolverModel,
    map: &AddressMap,
    form: &StdForm,
    answer: &SolverAnswer,
)
    requires { form.now ≡ form_of map.now solver.now.leaves }
{
    let read = read_back(page.alloc(), solver, map, form, answer);
    page.line(format_args!("{read:?}"));
}

/// Prints why an answer made by hand isn't read back.
pub fn show_far_apart(page: &mut Page, solver: &SolverModel, map: &AddressMap) {
    if let Ok(form) = build(page.alloc(), solver, map) {
        show_by_hand(page, solver, map, &form);
    }
}

fn show_by_hand(page: &mut Page, solver: &SolverModel, map: &AddressMap, form: &StdForm)
    requires { form.now ≡ form_of map.now solver.now.leaves }
{
    let answer = answer_by_hand(page.alloc());
    show_read(page, solver, map, form, &answer);
}

// An answer in which the free variable x is the difference of two numbers that doesn't fit. No
// pivot leads to one: at most one of the two columns is in a basis.
fn answer_by_hand(alloc: Global) -> SolverAnswer {
    SolverAnswer::Optimal {
        x: ratios(alloc, FAR_APART),
        y: Ratios::new(alloc),
        basis: Basis::new(alloc),
    }
}

const FAR_APART: &str =
    "170141183460469231731687303715884105727 -170141183460469231731687303715884105727";
