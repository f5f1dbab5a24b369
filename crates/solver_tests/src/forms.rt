// Small forms, each with the answer that the rule leads to, on the sparse and on the dense board.
ghost use Rattle.std.specs.Prelude.{◌↔◌, ◌≡◌, ◌*◌, All, IsTrue, length};
ghost use Rattle.ratio_core.specs.Rational.{zero_ℚ, ◌≤ℚ◌};
ghost use Rattle.simplex_core.specs.StdForm.{IsWellShaped};

use ratio_core::{Ratio, Ratios};
use simplex_core::{Flags, SolveFault, SolverAnswer, StdForm, solve, solve_dense};
use sparse_ratios::SparseRatios;
use std::alloc::Global;
use test_support::Page;

/// The numbers of a form: its matrix row by row, the right sides and the costs; and how many pivots
/// may be taken.
type Numbers = (&'static str, &'static str, &'static str, u64);

const BEALE: &str = "1/4 -8 -1 9 1 0 0  1/2 -12 -1/2 3 0 1 0  0 0 1 0 0 0 1";

const BEALE_COSTS: &str = "-3/4 20 -1/2 6 0 0 0";

const ANOTHER_CYCLE: &str = "1/2 -11/2 -5/2 9 1 0 0  1/2 -3/2 -1/2 1 0 1 0  1 0 0 0 0 0 1";

const TOP: &str = "1 170141183460469231731687303715884105727";

// With K = 2^63 - 1 and s = 2 (K + 2) / 3 two pivots lead to a row of value s K in an artificial
// column, and to the first price (3 - 2^127) / 3 of another. Its multiplier, 1 without that price,
// is 2^127 / 3.
const STUCK: &str = "1 0  9223372036854775807 1  -9223372036854775807 6148914691236517205  -2/3 0";

const PAST: &str = "9223372036854775808 18446744073709551616";

const ROOT: &str = "3037000499 1 1 3037000499";

const PAST_ROOT: &str = "3037000500 1 1 3037000500";

const WIDE: &str = "4294967296 4294967295 3 4294967295 4294967296 5 7 11 4294967297";

const WIDE_SIDES: &str = "12884901890 12884901896 4294967315";

const FORMS: [Numbers; 21] = [
    // Beale's example, at which the rule of the greatest coefficient cycles.
    (BEALE, "0 0 1", BEALE_COSTS, 1000),
    (BEALE, "0 0 1", BEALE_COSTS, 0),
    // An example of Chvátal's (Linear Programming, 1983) at which that rule cycles too.
    (ANOTHER_CYCLE, "0 0 1", "-10 57 9 24 0 0 0", 1000),
    ("0", "3", "1", 1000),
    ("", "", "-1", 1000),
    ("1 -1", "2", "0 -1", 1000),
    // The sweep leaves an artificial column at 0 where a row says what another does, and else
    // drives it out.
    ("1 1 1 1", "2 2", "1 2", 1000),
    ("-1", "0", "1", 1000),
    // No columns.
    ("", "0 0", "", 1000),
    ("", "0 1", "", 1000),
    ("", "", "", 1000),
    // A sum of a first price passes 128 bits, or a product of the first pivot.
    (TOP, "1 1", "0", 1000),
    (TOP, "1", "3 0", 1000),
    (STUCK, "0 0 1 1", "0 0", 2),
    (STUCK, "0 0 1 1", "0 0", 3),
    // The last numbers of 63 bits and the first of 64: rows that stay whole numbers, that start as
    // fractions, and that come back from them once they are divided.
    ("9223372036854775807 1", "9223372036854775807", "1 0", 1000),
    ("9223372036854775808 1", "9223372036854775808", "1 0", 1000),
    (PAST, "9223372036854775808", "3 2", 1000),
    // A product of two entries that passes 63 bits, and one that doesn't.
    (ROOT, "3037000500 3037000500", "1 2", 1000),
    (PAST_ROOT, "3037000501 3037000501", "1 2", 1000),
    (WIDE, WIDE_SIDES, "1 -1 1", 1000),
];

/// What each form comes to.
pub fn show(page: &mut Page) {
    page.line("# the simplex");
    show_each(page, &FORMS);
}

fn show_each(page: &mut Page, forms: &[Numbers]) {
    for form in forms {
        show_form(page, form);
    }
}

fn show_form(page: &mut Page, (matrix, right, costs, pivots): &Numbers) {
    page.line(format_args!("[{matrix}] [{right}] [{costs}]"));
    let form = form_of(page.alloc(), matrix, right, costs);
    show_answers(page, &form, *pivots);
}

fn form_of(alloc: Global, matrix: &str, right: &str, costs: &str) -> StdForm {
    let (right, costs) = (ratios(alloc, right), ratios(alloc, costs));
    let (m, c) = (right.len(), costs.len());
    StdForm {
        m,
        c,
        matrix: sparse(alloc, ratios(alloc, matrix).as_slice()),
        right,
        costs,
        flips: no_flips(alloc, m),
    }
}

// The numbers, or none where there is no memory for them.
fn sparse(alloc: Global, numbers: &[Ratio]) -> SparseRatios {
    match SparseRatios::from_slice(alloc, numbers) {
        Ok(list) => list,
        Err(_) => SparseRatios::new(alloc),
    }
}

/// The numbers in a text, but for those for which there is no memory.
pub fn ratios(alloc: Global, text: &str) -> Ratios {
    let mut items = Ratios::new(alloc);
    for word in text.split_whitespace() {
        put(&mut items, word);
    }
    items
}

fn put(items: &mut Ratios, word: &str) -> bool {
    match Ratio::read(word.as_bytes()) {
        Some(q) => items.push(q).is_ok(),
        None => false,
    }
}

fn no_flips(alloc: Global, count: usize) -> Flags {
    match vec![in alloc; false; count] {
        Ok(flips) => Flags::from_vec(flips),
        Err(_) => Flags::new(alloc),
    }
}

fn show_answers(page: &mut Page, form: &StdForm, pivots: u64) {
    if is_well_shaped(form) {
        show_sparse(page, form, pivots);
        show_dense(page, form, pivots);
    }
}

fn show_sparse(page: &mut Page, form: &StdForm, pivots: u64)
    requires { IsWellShaped form.now }
{
    tell(page, &solve(page.alloc(), form, pivots));
}

fn show_dense(page: &mut Page, form: &StdForm, pivots: u64)
    requires { IsWellShaped form.now }
{
    tell(page, &solve_dense(page.alloc(), form, pivots));
}

fn tell(page: &mut Page, outcome: &Result<SolverAnswer, SolveFault>) {
    page.line(format_args!("{outcome:?}"));
}

fn is_well_shaped(form: &StdForm) -> bool
    ensures { IsTrue result → IsWellShaped form.now }
{
    has_lengths(form) && are_nonnegative(form.right.as_slice())
}

fn has_lengths(form: &StdForm) -> bool
    ensures matrix { IsTrue result → length form.now.matrix ≡ form.now.m * form.now.c }
    ensures right { IsTrue result → length form.now.right ≡ form.now.m }
    ensures costs { IsTrue result → length form.now.costs ≡ form.now.c }
    ensures flips { IsTrue result → length form.now.flips ≡ form.now.m }
{
    let lengths = (form.right.len(), form.costs.len(), form.flips.len());
    match form.m.checked_mul(form.c) {
        Some(cells) => form.matrix.len() == cells && lengths == (form.m, form.c, form.m),
        None => false,
    }
}

fn are_nonnegative(right: &[Ratio]) -> bool
    ensures { IsTrue result ↔ All (λ b. zero_ℚ ≤ℚ b) right.now }
{
    right.iter().all(|b| is_nonnegative(b))
}

/// Whether a number may be a right side.
#[tactic(auto, using(rational_laws::specs::Tests::rational_tests))]
pub fn is_nonnegative(b: &Ratio) -> bool
    ensures { IsTrue result ↔ (zero_ℚ ≤ℚ b.now) }
{
    *b >= Ratio::zero()
}
