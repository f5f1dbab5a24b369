// Boards of one real column, pivoted twice, on the sparse board and on the dense one.
ghost use Rattle.std.specs.Prelude.{◌≡◌, ◌<◌, length, IfSome, true};
ghost use Rattle.tableau_core.specs.BoardContents.{IsInUse};

use crate::forms::is_nonnegative;
use crate::models::number;
use ratio_core::Ratio;
use sparse_board::Board;
use sparse_ratios::SparseRatios;
use std::alloc::Global;
use tableau_core::{CostRow, DenseBoard, Tableau};
use test_support::Page;

/// What both boards answer.
pub fn show(page: &mut Page) {
    page.line("# sparse board");
    show_board::<Board>(page);
    page.line("# dense board");
    show_board::<DenseBoard>(page);
}

fn show_board<T: Tableau + Drop>(page: &mut Page) {
    // 2 x + a = 3 with the cost 5.
    show_pivots::<T>(page, "2", "3", "5");
    // The entry divides, and then the right side's quotient doesn't fit.
    show_pivots::<T>(page, "1/3", "170141183460469231731687303715884105727", "1");
    show_end::<T>(page);
}

// The real column enters, the first phase ends, and the artificial column comes back.
fn show_pivots<T: Tableau + Drop>(page: &mut Page, entry: &str, right: &str, cost: &str) {
    if let Some(mut board) = one_by_one::<T>(page.alloc(), entry, right, cost) {
        show_first(page, &board);
        pivot(page, &mut board, 0);
        show_first(page, &board);
        board.end_phase_one();
        pivot(page, &mut board, 1);
        show_row(page, &board);
    }
}

// A pivot that fits in each row, but in the first cost row as 2^127 + 2, which passes 128 bits: it
// is made once the first phase has ended.
fn show_end<T: Tableau + Drop>(page: &mut Page) {
    let half = number("1/2");
    let second = number("85070591730234615865843651857942052865/2");
    let third = number("42535295865117307932921825928971026432");
    let zero = Ratio::zero();
    let Ok(column) = SparseRatios::from_slice(page.alloc(), &[half, second, third]) else {
        return;
    };
    let begun = T::start(page.alloc(), 3, 1, &column, &[zero, zero, zero], &[zero]);
    if let Ok(mut board) = begun {
        pivot(page, &mut board, 0);
        board.end_phase_one();
        pivot(page, &mut board, 0);
    }
}

// The board of one row and one real column, where the right side may be one.
fn one_by_one<T: Tableau + Drop>(alloc: Global, entry: &str, right: &str, cost: &str) -> Option<T>
    ensures rows { IfSome result (λ board. length (T.contents board).rows ≡ 1) }
    ensures reals { IfSome result (λ board. (T.contents board).reals ≡ 1) }
    ensures in_first { IfSome result (λ board. (T.contents board).in_first ≡ true) }
{
    let right = number(right);
    if !is_nonnegative(&right) {
        return None;
    }
    let matrix = SparseRatios::from_slice(alloc, &[number(entry)]).ok()?;
    match T::start(alloc, 1, 1, &matrix, &[right], &[number(cost)]) {
        Ok(board) => Some(board),
        Err(_) => None,
    }
}

fn show_first<T: Tableau>(page: &mut Page, board: &T)
    requires rows { length (T.contents board.now).rows ≡ 1 }
    requires reals { (T.contents board.now).reals ≡ 1 }
    requires in_first { (T.contents board.now).in_first ≡ true }
{
    show_row(page, board);
    show_prices(page, board, CostRow::First);
    page.line(format_args!("    swept {:?}", board.swept_column(0)));
}

fn show_row<T: Tableau>(page: &mut Page, board: &T)
    requires rows { length (T.contents board.now).rows ≡ 1 }
    requires reals { (T.contents board.now).reals ≡ 1 }
{
    let (first, second) = (board.entry(0, 0), board.entry(0, 1));
    page.line(format_args!("row {first} {second} = {}", board.right(0)));
    show_prices(page, board, CostRow::Second);
    page.line(format_args!("    basis {:?}", board.basis()));
}

fn show_prices<T: Tableau>(page: &mut Page, board: &T, costs: CostRow)
    requires rows { length (T.contents board.now).rows ≡ 1 }
    requires reals { (T.contents board.now).reals ≡ 1 }
    requires used { IsInUse costs (T.contents board.now) }
{
    let (first, second) = (board.price(costs, 0), board.price(costs, 1));
    page.word(format_args!(
        "    prices of phase {}: {first} {second}, ",
        phase_of(costs)
    ));
    page.line(format_args!("enters {:?}", board.entering(costs)));
}

fn phase_of(costs: CostRow) -> u8 {
    match costs {
        CostRow::First => 1,
        CostRow::Second => 2,
    }
}

// A pivot in the first row, where the entry isn't 0.
fn pivot<T: Tableau>(page: &mut Page, board: &mut T, q: usize)
    requires rows { 0 < length (T.contents board.old).rows }
    requires reals { (T.contents board.old).reals ≡ 1 }
    requires column { q < 2 }
    ensures rows { length (T.contents board.new).rows ≡ length (T.contents board.old).rows }
    ensures reals { (T.contents board.new).reals ≡ 1 }
    ensures in_first { (T.contents board.new).in_first ≡ (T.contents board.old).in_first }
{
    if !board.entry(0, q).is_zero() {
        page.line(format_args!("pivot {q}: {:?}", board.pivot(0, q)));
    }
}
