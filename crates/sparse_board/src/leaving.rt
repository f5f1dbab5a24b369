//! The row that leaves, by whole numbers where two rows have them.
ghost use Rattle.std.specs.Prelude.{◌≡◌, ◌+◌, ◌<◌, ◌≤◌, ℕ, IsTrue, IfSome, Some, false, if◌then◌else◌, length, min};
ghost use Rattle.ratio_core.specs.Rational.{zero_ℚ, ◌/ℚ◌, ◌‹ℚ◌};
ghost use Rattle.simplex_form.specs.Search.{best_below, better_of};
ghost use Rattle.simplex_form.specs.Turns.{is_below};
ghost use Rattle.tableau_core.specs.Leaving.{comes_before};
ghost use Rattle.sparse_board.specs.Leaving.{IsBestTo, IsSparseCandidate, leaves_before, may_leave};
ghost use Rattle.sparse_board.specs.Mixed.{number_of, width_of};
ghost use Rattle.sparse_board.specs.Marking.{AreNumbersMarked};
ghost use Rattle.sparse_board.specs.Rows.{AreSparseRowsWide};
ghost use Rattle.sparse_board.specs.Words.{Clears, Leaves};
ghost use Rattle.std.specs.Int.{bit_at};
ghost use Rattle.whole_rows.specs.Rows as whole;

use crate::marks::Marks;
use crate::mixed_row::MixedRow;
use crate::row::Row;
use crate::words::word_end;
use std::cmp::Ordering;
use tableau_core::is_positive;
use whole_rows::{has_positive, is_before, next_bit, without_bit_if, without_lowest};

// The row of least ratio of its right side to its positive entry of column q, and of these that of
// least basic column. The right sides stand in column `side`. A row that isn't marked in column q
// has no entry there.
#[inline(never)]
pub(crate) fn leaving(
    rows: &[Row],
    basis: &[usize],
    marks: &Marks,
    side: usize,
    q: usize,
) -> Option<usize>
    requires wide { AreSparseRowsWide (side + 1) rows.now }
    requires column { q < side }
    requires basis { length basis.now ≡ length rows.now }
    requires columns { marks.now.columns ≡ side + 1 }
    requires count { marks.now.rows ≡ length rows.now }
    requires marked { AreNumbersMarked (side + 1) marks.now rows.now }
    ensures value { result ≡ best_below (length rows.now) (may_leave rows.now q)
        (leaves_before rows.now basis.now side q) }
    ensures candidate { IfSome result (λ r. IsSparseCandidate rows.now q r) }
{
    let mut best = None;
    for k in 0..marks.stride() {
        let word = positive_bits(rows, side, q, k * 64, marks.word(q, k));
        best = leaving_in(rows, basis, side, q, k * 64, word, best);
    }
    best
}

// Clears the bits of a word whose rows have no positive entry of column q; its first bit is of row
// `start`. The entries lie far apart: none is waited for before the next is asked for.
#[inline]
fn positive_bits(rows: &[Row], side: usize, q: usize, start: usize, word: u64) -> u64
    requires wide { AreSparseRowsWide (side + 1) rows.now }
    requires column { q < side }
    requires start { start ≤ length rows.now }
    ensures clears { Clears (λ i. may_leave rows.now q i ≡ false) (length rows.now) start word
        result }
    ensures left { Leaves (λ i. IsTrue (may_leave rows.now q i)) (length rows.now) start result }
{
    let mut kept = word;
    let end = word_end(rows.len() - start);
    let mut rest = word;
    let mut bit = next_bit(rest, 0);
    while bit < end {
        let i = start + bit;
        let is_positive = is_entry_positive(&rows[i].now, q);
        kept = without_bit_if(kept, bit, !is_positive);
        rest = without_lowest(rest);
        bit = next_bit(rest, 0);
    }
    kept
}

// The best of the first rows and of those of a word's bits, whose first is of row `start`.
#[inline]
fn leaving_in(
    rows: &[Row],
    basis: &[usize],
    side: usize,
    q: usize,
    start: usize,
    word: u64,
    first: Option<usize>,
) -> Option<usize>
    requires wide { AreSparseRowsWide (side + 1) rows.now }
    requires column { q < side }
    requires basis { length basis.now ≡ length rows.now }
    requires start { start ≤ length rows.now }
    requires others { (k : ℕ) → k < 64 → start + k < length rows.now → bit_at word k ≡ 0
        → may_leave rows.now q (start + k) ≡ false }
    requires left { Leaves (λ i. IsTrue (may_leave rows.now q i)) (length rows.now) start word }
    requires first { IsBestTo rows.now basis.now side q start first }
    ensures { IsBestTo rows.now basis.now side q (min (start + 64) (length rows.now)) result }
{
    let mut best = first;
    let end = word_end(rows.len() - start);
    let mut rest = word;
    let mut bit = next_bit(rest, 0);
    while bit < end {
        let i = start + bit;
        if leaves_first(rows, basis, side, q, i, best) {
            best = Some(i);
        }
        rest = without_lowest(rest);
        bit = next_bit(rest, 0);
    }
    best
}

// Whether row i, which may leave, does so before the best so far.
fn leaves_first(
    rows: &[Row],
    basis: &[usize],
    side: usize,
    q: usize,
    i: usize,
    best: Option<usize>,
) -> bool
    requires wide { AreSparseRowsWide (side + 1) rows.now }
    requires column { q < side }
    requires basis { length basis.now ≡ length rows.now }
    requires row { i < length rows.now }
    requires may_leave { IsTrue (may_leave rows.now q i) }
    requires best { IfSome best (λ k. IsSparseCandidate rows.now q k) }
    ensures value { better_of (may_leave rows.now q) (leaves_before rows.now basis.now side q) best i
        ≡ (if result then Some i else best) }
    ensures candidate { IsTrue result → IsSparseCandidate rows.now q i }
{
    match best {
        Some(k) => leaves_sooner(&rows[i], &rows[k], side, q, basis[i] < basis[k]),
        None => true,
    }
}

#[inline]
#[tactic(auto, using(rational_laws::specs::Tests::rational_tests))]
fn is_entry_positive(row: &MixedRow, q: usize) -> bool
    requires { q + 1 < width_of row.now }
    ensures value { result ≡ is_below zero_ℚ (number_of row.now q) }
    ensures above { IsTrue result → zero_ℚ ‹ℚ number_of row.now q }
{
    if row.is_wide {
        is_positive(&row.wide.number(q as u32))
    } else {
        has_positive(&row.narrow, q)
    }
}

// Whether a row leaves before another, where of equal ratios it does if its basic column is lower.
#[inline]
fn leaves_sooner(row: &Row, other: &Row, side: usize, q: usize, is_lower: bool) -> bool
    requires width { width_of row.now.now ≡ side + 1 }
    requires other_width { width_of other.now.now ≡ side + 1 }
    requires column { q < side }
    requires above { zero_ℚ ‹ℚ number_of row.now.now q }
    requires other_above { zero_ℚ ‹ℚ number_of other.now.now q }
    ensures { result ≡ comes_before
        (number_of row.entry.now.now side /ℚ number_of row.entry.now.now q)
        (number_of other.entry.now.now side /ℚ number_of other.entry.now.now q) is_lower }
{
    if is_whole(&row.now, side) && is_whole(&other.now, side) {
        return is_before(&row.now.narrow, &other.now.narrow, q, is_lower);
    }
    comes_first(&row.now, &other.now, side, q, is_lower)
}

// Whether a row is of whole numbers, with its right side behind this many columns.
#[inline]
fn is_whole(row: &MixedRow, side: usize) -> bool
    ensures { IsTrue result → (row.now.is_wide ≡ false) × (whole.width_of row.now.narrow ≡ side) }
{
    !row.is_wide && row.narrow.numbers.len() == side
}

// The same by fractions.
fn comes_first(row: &MixedRow, other: &MixedRow, side: usize, q: usize, is_lower: bool) -> bool
    requires width { width_of row.now ≡ side + 1 }
    requires other_width { width_of other.now ≡ side + 1 }
    requires column { q < side }
    requires above { zero_ℚ ‹ℚ number_of row.now q }
    requires other_above { zero_ℚ ‹ℚ number_of other.now q }
    ensures { result ≡ comes_before (number_of row.now side /ℚ number_of row.now q)
        (number_of other.now side /ℚ number_of other.now q) is_lower }
{
    let right = row.number(side as u32);
    let over = row.number(q as u32);
    match right.cmp_quotients(&over, &other.number(side as u32), &other.number(q as u32)) {
        Ordering::Less => true,
        Ordering::Equal => is_lower,
        Ordering::Greater => false,
    }
}
