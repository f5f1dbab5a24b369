//! The cost rows that a board starts with.
ghost use Rattle.std.specs.Prelude.{◌≡◌, ◌+◌, ◌*◌, ◌<◌, ◌≤◌, ◌^◌, ℕ, List, length, false, pos, true, IfOk, IsErrOf, IsTrue, OnOk};
ghost use Rattle.ratio_core.specs.Rational.{Rational};
ghost use Rattle.simplex_form.specs.Board.{price};
ghost use Rattle.simplex_form.specs.Fit.{start_fits};
ghost use Rattle.simplex_form.specs.Form.{first_cost, second_cost};
ghost use Rattle.tableau_core.specs.Row.{AllFit, cell};
ghost use Rattle.tableau_core.specs.Start.{AtEachStart, form_of};
ghost use Rattle.sparse_board.specs.Mixed.{number_of, width_of};
ghost use Rattle.whole_rows.specs.Rows as whole;

use crate::cost_rows::CostRows;
use crate::row::Row;
use crate::sparse_row::SparseRow;
use crate::starting::{lower_terms, put_numbers};
use crate::terms::{row_end, terms_between};
use ratio_core::{NumberFault, Ratio};
use sparse_ratios::SparseRatios;
use std::alloc::{AllocError, Global};
use tableau_core::{first_prices, second_prices};
use whole_rows::NarrowRow;

// Both cost rows. The first phase's is in use.
pub(crate) fn start_costs(
    alloc: Global,
    m: usize,
    c: usize,
    matrix: &SparseRatios,
    costs: &[Ratio],
) -> Result<CostRows, NumberFault>
    requires long { length matrix.now ≡ m * c }
    requires costs { length costs.now ≡ c }
    requires few { c + m + 1 < 2 ^ 32 }
    ensures in_first { IfOk result (λ rows. rows.in_first ≡ true) }
    ensures first_wide { IfOk result (λ rows. width_of rows.first.now ≡ c + m) }
    ensures second_wide { IfOk result (λ rows. width_of rows.second.now ≡ c + m) }
    ensures first { IfOk result (λ rows. AtEachStart m c matrix.now (λ F s.
        (j : ℕ) → j < c + m → number_of rows.first.now j ≡ price F s (first_cost F) j)) }
    ensures second { IfOk result (λ rows. (right : List Rational) →
        let F = form_of m c matrix.now right costs.now in
        (j : ℕ) → j < c + m → number_of rows.second.now j ≡ second_cost F j) }
    ensures fits { OnOk result (AtEachStart m c matrix.now (λ F _. start_fits F ≡ true)) }
    ensures overflow { IsErrOf result NumberFault.Overflow
        → AtEachStart m c matrix.now (λ F _. start_fits F ≡ false) }
{
    let first = first_row(alloc, m, c, matrix)?;
    let second = second_row(alloc, m, costs)?;
    Ok(CostRows {
        in_first: true,
        first,
        second,
    })
}

// The first: the negated sums of the real columns, and 0 in each artificial one.
fn first_row(alloc: Global, m: usize, c: usize, matrix: &SparseRatios) -> Result<Row, NumberFault>
    requires long { length matrix.now ≡ m * c }
    requires few { c + m + 1 < 2 ^ 32 }
    ensures wide { IfOk result (λ row. width_of row.now ≡ c + m) }
    ensures prices { IfOk result (λ row. AtEachStart m c matrix.now (λ F s.
        (j : ℕ) → j < c + m → number_of row.now j ≡ price F s (first_cost F) j)) }
    ensures fits { OnOk result (AtEachStart m c matrix.now (λ F _. start_fits F ≡ true)) }
    ensures overflow { IsErrOf result NumberFault.Overflow
        → AtEachStart m c matrix.now (λ F _. start_fits F ≡ false) }
{
    let mut narrow = NarrowRow::zeros(alloc, c + m)?;
    if lower_by_rows(&mut narrow, m, c, matrix) {
        return Ok(Row::of_whole(alloc, narrow, c + m));
    }
    let prices = first_prices(alloc, m, c, matrix)?;
    Ok(row_of(alloc, narrow, &prices)?)
}

// Lowers zeros by each row of the matrix: the first cost row, where all numbers and all sums are whole
// numbers of 64 bits. Tells whether they are.
fn lower_by_rows(row: &mut NarrowRow, m: usize, c: usize, matrix: &SparseRatios) -> bool
    requires long { length matrix.now ≡ m * c }
    requires wide { whole.width_of row.old ≡ c + m }
    requires den { row.old.den ≡ 1 }
    requires zeros { (j : ℕ) → whole.numerator_of row.old j ≡ pos 0 }
    ensures width { whole.width_of row.new ≡ c + m }
    ensures prices { IsTrue result → AtEachStart m c matrix.now (λ F s.
        (j : ℕ) → j < c + m → whole.number_of row.new j ≡ price F s (first_cost F) j) }
    ensures fits { IsTrue result
        → AtEachStart m c matrix.now (λ F _. start_fits F ≡ true) }
{
    // what this ensures: its places fit
    let _places = matrix.len();
    let terms = matrix.terms();
    let mut from = 0;
    for i in 0..m {
        let end = row_end(terms, from, i * c + c);
        let entries = terms_between(terms, from, end);
        if !lower_terms(row, entries, i * c, c) {
            return false;
        }
        from = end;
    }
    true
}

// The second: the costs, and 0 in each artificial column.
fn second_row(alloc: Global, m: usize, costs: &[Ratio]) -> Result<Row, AllocError>
    requires few { length costs.now + m + 1 < 2 ^ 32 }
    ensures wide { IfOk result (λ row. width_of row.now ≡ length costs.now + m) }
    ensures prices { IfOk result (λ row. (matrix right : List Rational) →
        let F = form_of m (length costs.now) matrix right costs.now in
        (j : ℕ) → j < length costs.now + m → number_of row.now j ≡ second_cost F j) }
{
    let mut narrow = NarrowRow::zeros(alloc, costs.len() + m)?;
    if put_numbers(&mut narrow, costs) {
        return Ok(Row::of_whole(alloc, narrow, costs.len() + m));
    }
    let prices = second_prices(alloc, m, costs)?;
    row_of(alloc, narrow, &prices)
}

// A row of these numbers, over their least denominator in the room for whole numbers, where 64 bits
// are enough.
fn row_of(alloc: Global, narrow: NarrowRow, numbers: &[Ratio]) -> Result<Row, AllocError>
    requires columns { length numbers.now ≤ whole.width_of narrow + 1 }
    requires few { length numbers.now < 2 ^ 32 }
    requires all_fit { AllFit numbers.now }
    ensures wide { IfOk result (λ row. width_of row.now ≡ length numbers.now) }
    ensures numbers { IfOk result (λ row.
        (j : ℕ) → j < length numbers.now → number_of row.now j ≡ cell numbers.now j) }
{
    let mut room = SparseRow::zeros(alloc, numbers.len())?;
    for j in 0..numbers.len() {
        room.push_any(j as u32, numbers[j]);
    }
    Ok(Row::new(alloc, narrow, &mut room, numbers.len()))
}
