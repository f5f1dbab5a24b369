// The models, each as a table of rows.
use crate::answers;
use crate::models::{Row, Terms, fill, set_objective};
use solver_store::{Sense, SolverModel};
use std_form::AddressMap;
use test_support::Page;

/// A form of every kind of row, the three kinds of answers, and the refusals.
pub fn show(page: &mut Page) {
    page.line("# equality forms");
    model(page, &EACH_KIND, Sense::Max, ("2", "5", "7"));
    show_answered(page);
    show_refused(page);
    far_apart(page, &UNBOUNDED);
}

fn show_answered(page: &mut Page) {
    // x + 2 y is least at x = 1 and y = 2.
    model(page, &OPTIMAL, Sense::Min, ("1", "2", "5"));
    model(page, &INFEASIBLE, Sense::Min, NOTHING);
    // x falls without end.
    model(page, &UNBOUNDED, Sense::Max, ("-3", "0", "0"));
}

fn show_refused(page: &mut Page) {
    model(page, &TOO_LARGE, Sense::Min, NOTHING);
    model(page, &TOO_GREAT, Sense::Min, NOTHING);
}

const NOTHING: Terms = ("0", "0", "0");

const EACH_KIND: [(u32, Row); 4] = [
    (3, Row::Pair(("1", "1", "-4"), ("0", "2", "0"))),
    (1, Row::AtLeast(("1", "-1/3", "0"), "-2")),
    (0, Row::AtMost(("2", "3", "1"), "5")),
    (2, Row::Fixes("3")),
];

const OPTIMAL: [(u32, Row); 3] = [
    (0, Row::AtLeast(("1", "0", "0"), "-1")),
    (1, Row::AtLeast(("1", "1", "0"), "3")),
    (2, Row::AtMost(("1", "0", "0"), "1")),
];

// y is to be at most -1.
const INFEASIBLE: [(u32, Row); 1] = [(0, Row::AtMost(("0", "1", "0"), "-1"))];

const UNBOUNDED: [(u32, Row); 1] = [(0, Row::AtMost(("1", "0", "0"), "-2"))];

// 4095 equations of 3 columns, 4095 artificial ones and the right side.
const TOO_LARGE: [(u32, Row); 1] = [(0, Row::Zeros(4095))];

// 2^127 - 1 without the constant -1.
const TOO_GREAT: [(u32, Row); 1] = [(
    0,
    Row::AtMost(("1", "0", "-1"), "170141183460469231731687303715884105727"),
)];

fn model(page: &mut Page, rows: &[(u32, Row)], sense: Sense, terms: Terms) {
    let mut solver = SolverModel::new(page.alloc());
    let mut map = AddressMap::new(page.alloc());
    show_filled(page, &mut solver, &mut map, rows, sense, &terms);
}

fn show_filled(
    page: &mut Page,
    solver: &mut SolverModel,
    map: &mut AddressMap,
    rows: &[(u32, Row)],
    sense: Sense,
    terms: &Terms,
) {
    if fill(page.alloc(), solver, map, rows).is_ok() {
        set_objective(page.alloc(), solver, sense, terms);
        answers::show(page, solver, map);
    }
}

fn far_apart(page: &mut Page, rows: &[(u32, Row)]) {
    let mut solver = SolverModel::new(page.alloc());
    let mut map = AddressMap::new(page.alloc());
    fill_far_apart(page, &mut solver, &mut map, rows);
}

fn fill_far_apart(
    page: &mut Page,
    solver: &mut SolverModel,
    map: &mut AddressMap,
    rows: &[(u32, Row)],
) {
    if fill(page.alloc(), solver, map, rows).is_ok() {
        answers::show_far_apart(page, solver, map);
    }
}
