// The solver's model: a variable, a row and an objective, added, changed and removed, and how many
// calls are counted; functions and points over indices.
use ratio_core::Ratio;
use solver_store::{
    LeafObjective, LeafPoint, LeafRow, LeafVar, Sense, Set, SolverAff, SolverModel,
};
use test_support::Page;

/// Each call, on one model.
pub fn show(page: &mut Page) {
    page.line("# the solver's model");
    let mut solver = SolverModel::new(page.alloc());
    show_calls(page, &mut solver);
    show_terms(page);
    show_point(page);
}

fn show_calls(page: &mut Page, solver: &mut SolverModel) {
    page.line(format_args!("room {:?}", solver.reserve(1, 1)));
    show_variable(page, solver);
    show_row(page, solver);
    show_objective(page, solver);
}

fn show_variable(page: &mut Page, solver: &mut SolverModel) {
    page.line(format_args!("add a variable: {:?}", solver.add_var(LeafVar::Free)));
    tell_variable(page, solver);
    if solver.var(0).is_some() {
        solver.change_var(0, LeafVar::Nonneg);
    }
    tell_variable(page, solver);
    if solver.var(0).is_some() {
        solver.remove_var(0);
    }
    tell_variable(page, solver);
}

fn tell_variable(page: &mut Page, solver: &SolverModel) {
    page.line(format_args!("    {:?}, calls {}", solver.var(0), solver.calls()));
}

// The row in which a variable is 0.
fn zero_row(var: usize) -> LeafRow {
    let value = Ratio::zero();
    let set = Set::EqualTo { value };
    LeafRow::Plain { var, set }
}

fn show_row(page: &mut Page, solver: &mut SolverModel) {
    page.line(format_args!("add a row: {:?}", solver.add_row(zero_row(3))));
    tell_row(page, solver);
    change_row(page, solver);
    tell_row(page, solver);
    remove_row(page, solver);
    tell_row(page, solver);
}

fn change_row(page: &mut Page, solver: &mut SolverModel) {
    if solver.row(0).is_some() {
        page.line(format_args!("change {:?}", solver.change_row(0, zero_row(4))));
    }
}

fn remove_row(page: &mut Page, solver: &mut SolverModel) {
    if solver.row(0).is_some() {
        page.line(format_args!("remove {:?}", solver.remove_row(0)));
    }
}

fn tell_row(page: &mut Page, solver: &SolverModel) {
    page.line(format_args!("    {:?}, calls {}", solver.row(0), solver.calls()));
}

fn show_objective(page: &mut Page, solver: &mut SolverModel) {
    let (sense, var) = (Sense::Max, 0);
    solver.set_objective(Some(LeafObjective::Plain { sense, var }));
    tell_objective(page, solver);
    solver.clear();
    tell_objective(page, solver);
}

fn tell_objective(page: &mut Page, solver: &SolverModel) {
    page.line(format_args!(
        "objective {:?}, calls {}",
        solver.objective(),
        solver.calls()
    ));
}

// A zero is left out of a function.
fn show_terms(page: &mut Page) {
    let terms = [(2, Ratio::zero()), (5, Ratio::one())];
    if let Ok(f) = SolverAff::from_terms(page.alloc(), &terms, Ratio::one()) {
        show_function(page, &f);
    }
}

// A point keeps its numbers.
fn show_point(page: &mut Page) {
    let mut point = LeafPoint::new(page.alloc());
    page.line(format_args!("put {:?}", point.put(7, Ratio::one()).is_ok()));
    page.line(format_args!("at 7 {:?}, at 0 {:?}", point.get(7), point.get(0)));
}

fn show_function(page: &mut Page, f: &SolverAff) {
    page.line(format_args!("terms {:?}", f.terms()));
    page.line(format_args!("count {}, first {:?}", f.term_count(), f.term(0)));
    page.line(format_args!("constant {}", f.constant()));
}
