//! The rows that a board starts with.
ghost use Rattle.std.specs.Prelude.{◌≡◌, ◌+◌, ◌*◌, ◌<◌, ◌≤◌, ◌^◌, ℕ, List, [], length, IfOk};
ghost use Rattle.ratio_core.specs.Rational.{Rational};
ghost use Rattle.sparse_ratios.specs.Terms.{AreTerms, number_at};
ghost use Rattle.simplex_form.specs.Board.{entry};
ghost use Rattle.tableau_core.specs.Row.{cell};
ghost use Rattle.tableau_core.specs.Start.{AtEachStart};
ghost use Rattle.sparse_board.specs.Mixed.{number_of, width_of};
ghost use Rattle.sparse_board.specs.Numbers as sparse;
ghost use Rattle.sparse_board.specs.Numbers.{HoldsBelow};
ghost use Rattle.sparse_board.specs.Rows.{AreSparseRowsWide, number_in_row};

use crate::row::Row;
use crate::sparse_row::SparseRow;
use crate::starting::put_row;
use crate::terms::{row_end, terms_between};
use ratio_core::Ratio;
use sparse_ratios::SparseRatios;
use std::alloc::{AllocError, Global};
use whole_rows::NarrowRow;

// The rows, whose basis matrix is the unit matrix, each with its right side behind its columns.
pub(crate) fn start_rows(
    alloc: Global,
    m: usize,
    c: usize,
    matrix: &SparseRatios,
    right: &[Ratio],
) -> Result<Vec<Row>, AllocError>
    requires matrix { length matrix.now ≡ m * c }
    requires right { length right.now ≡ m }
    requires few { c + m + 1 < 2 ^ 32 }
    ensures count { IfOk result (λ rows. length rows.items ≡ m) }
    ensures wide { IfOk result (λ rows. AreSparseRowsWide (c + m + 1) rows.items) }
    ensures entries { IfOk result (λ rows. AtEachStart m c matrix.now (λ F s.
        (i j : ℕ) → i < m → j < c + m → number_in_row rows.items i j ≡ entry F s j i)) }
    ensures sides { IfOk result (λ rows.
        (i : ℕ) → i < m → number_in_row rows.items i (c + m) ≡ cell right.now i) }
{
    // what this ensures: its places fit
    let _places = matrix.len();
    let mut rows = Vec::with_capacity(alloc, m)?;
    let mut room = SparseRow::closed(alloc);
    let terms = matrix.terms();
    let mut from = 0;
    for (i, side) in right.iter().enumerate() {
        let end = row_end(terms, from, i * c + c);
        let entries = terms_between(terms, from, end);
        rows.push(start_row(alloc, m, c, entries, i, side, &mut room)?)?;
        from = end;
    }
    Ok(rows)
}

// Row i, of whose entries these are the terms: the unit number of its artificial column and its right
// side are put behind them. All rows of fractions are made in one room.
fn start_row(
    alloc: Global,
    m: usize,
    c: usize,
    terms: &[(usize, Ratio)],
    i: usize,
    side: &Ratio,
    room: &mut SparseRow,
) -> Result<Row, AllocError>
    requires terms { AreTerms (i * c) (i * c + c) terms.now }
    requires fits { i * c + c < 2 ^ 64 }
    requires within { i < m }
    requires few { c + m + 1 < 2 ^ 32 }
    requires room { sparse.width_of room.old ≤ c + m + 1 }
    ensures wide { IfOk result (λ row. width_of row.now ≡ c + m + 1) }
    ensures entries { IfOk result (λ row. (matrix : List Rational)
        → ((j : ℕ) → j < c → number_at terms.now (i * c + j) ≡ cell matrix (i * c + j))
        → AtEachStart m c matrix (λ F s.
        (j : ℕ) → j < c + m → number_of row.now j ≡ entry F s j i)) }
    ensures side { IfOk result (λ row. number_of row.now (c + m) ≡ side.now) }
    ensures room { IfOk result (λ row. sparse.width_of room.new ≤ c + m + 1) }
{
    let mut narrow = NarrowRow::zeros(alloc, c + m)?;
    if put_row(&mut narrow, terms, i * c, c, c + i, side) {
        return Ok(Row::of_whole(alloc, narrow, c + m + 1));
    }
    room.open(c + m + 1)?;
    room.clear();
    push_row(room, terms, i * c, c);
    room.push_any((c + i) as u32, Ratio::one());
    let _fits = side.num();
    room.push_any((c + m) as u32, *side);
    Ok(Row::new(alloc, narrow, room, c + m + 1))
}

// Pushes the numbers of a row, each beside its place. The first column's place is `from`.
fn push_row(row: &mut SparseRow, terms: &[(usize, Ratio)], from: usize, c: usize)
    requires terms { AreTerms from (from + c) terms.now }
    requires few { c < 2 ^ 32 }
    requires wide { c ≤ sparse.width_of row.old }
    requires empty { row.old.entries.items ≡ [] }
    ensures width { sparse.width_of row.new ≡ sparse.width_of row.old }
    ensures held { HoldsBelow c (λ j. number_at terms.now (from + j)) row.new }
{
    for term in terms {
        let j = term.0 - from;
        let _fits = term.1.num();
        row.push_any(j as u32, term.1);
    }
}
