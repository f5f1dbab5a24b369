//! The rows that a pivot changes.
ghost use Rattle.std.specs.Prelude.{◌≡◌, ◌+◌, ◌<◌, ◌≤◌, ◌^◌, ℕ, IsTrue, false, length, min};
ghost use Rattle.std.specs.Int.{bit_at};
ghost use Rattle.ratio_core.specs.Rational.{zero_ℚ};
ghost use Rattle.sparse_board.specs.Mixed as mixed;
ghost use Rattle.sparse_board.specs.Rows.{number_in_row};
ghost use Rattle.sparse_board.specs.Words.{Clears};
ghost use Rattle.sparse_board.specs.Marks.{SameSizes};
ghost use Rattle.sparse_board.specs.Marking.{AreNumbersMarked};
ghost use Rattle.sparse_board.specs.Changes.{AreChangesNoted, ListsChanges};

use crate::marks::Marks;
use crate::mixed_row::MixedRow;
use crate::row::Row;
use crate::words::word_end;
use std::alloc::{AllocError, Global};
use whole_rows::{is_nonzero_at, next_bit, without_bit_if, without_lowest};

// The rows other than the pivot's that have a number in its column, rising, in the first places. A
// pivot goes over them three times.
#[derive(Drop)]
pub(crate) struct Changes {
    pub(crate) rows: Vec<u32>,
    pub(crate) count: usize,
    ghost fits: { count ≤ length rows.items },
}

impl Changes {
    ghost use Rattle.std.specs.Prelude.{IfOk};

    // None, with room for this number of rows.
    pub(crate) fn none(alloc: Global, count: usize) -> Result<Changes, AllocError>
        ensures { IfOk result (λ changes. length changes.rows.items ≡ count) }
    {
        let rows = vec![in alloc; 0u32; count]?;
        Ok(Changes { rows, count: 0 })
    }

    // Notes the rows other than r that have a number in column q, and takes the marks of this column
    // off the rows that have none: what was marked may have become 0, and each marked row is looked
    // at. Tells whether a row with a number there is of fractions.
    pub(crate) fn note(&mut self, rows: &[Row], r: usize, q: u32, marks: &mut Marks) -> bool
        requires column { q < marks.old.columns }
        requires rows { marks.old.rows ≡ length rows.now }
        requires marked { AreNumbersMarked marks.old.columns marks.old rows.now }
        requires room { length self.old.rows.items ≡ length rows.now }
        ensures room { length self.new.rows.items ≡ length self.old.rows.items }
        ensures sizes { SameSizes marks.old marks.new }
        ensures marked { (w : ℕ) → AreNumbersMarked w marks.old rows.now
            → AreNumbersMarked w marks.new rows.now }
        ensures lists { ListsChanges rows.now r q self.new.rows.items self.new.count }
    {
        let noted = note_changes(rows, r, q, marks, &mut self.rows);
        self.count = noted.count;
        noted.has_wide
    }
}

// How many rows are noted, and whether one that has a number in the column is of fractions.
#[derive(Clone, Copy, Drop)]
struct Noted {
    count: usize,
    has_wide: bool,
}

#[inline(never)]
fn note_changes(rows: &[Row], r: usize, q: u32, marks: &mut Marks, listed: &mut [u32]) -> Noted
    requires column { q < marks.old.columns }
    requires rows { marks.old.rows ≡ length rows.now }
    requires marked { AreNumbersMarked marks.old.columns marks.old rows.now }
    requires room { length listed.old ≡ length rows.now }
    ensures sizes { SameSizes marks.old marks.new }
    ensures marked { (w : ℕ) → AreNumbersMarked w marks.old rows.now
        → AreNumbersMarked w marks.new rows.now }
    ensures within { result.count ≤ length listed.new }
    ensures lists { ListsChanges rows.now r q listed.new result.count }
{
    let mut has_wide = false;
    let mut count = 0;
    for k in 0..marks.stride() {
        let word = marks.word(q as usize, k);
        let noted = note_bits(rows, r, q, k * 64, word, listed, count);
        marks.set_word(q as usize, k, noted.kept);
        has_wide = has_wide | noted.has_wide;
        count = noted.count;
    }
    Noted { count, has_wide }
}

// The bits of a word that stay set beside what is noted.
#[derive(Clone, Copy, Drop)]
struct NotedBits {
    kept: u64,
    count: usize,
    has_wide: bool,
}

// Notes the rows of a word's bits behind the others; its first bit is of row `start`. Clears the bits
// of those that have no number in column q. A row is written before it is known to be one: which have
// a number can't be foreseen.
#[inline]
fn note_bits(
    rows: &[Row],
    r: usize,
    q: u32,
    start: usize,
    word: u64,
    listed: &mut [u32],
    before: usize,
) -> NotedBits
    requires start { start ≤ length rows.now }
    requires few { length rows.now < 2 ^ 32 }
    requires others { (k : ℕ) → k < 64 → start + k < length rows.now → bit_at word k ≡ 0
        → number_in_row rows.now (start + k) q ≡ zero_ℚ }
    requires noted { AreChangesNoted rows.now r q listed.old before start }
    ensures clears { Clears (λ i. number_in_row rows.now i q ≡ zero_ℚ) (length rows.now) start word
        result.kept }
    ensures noted { AreChangesNoted rows.now r q listed.new result.count
        (min (start + 64) (length rows.now)) }
{
    let mut kept = word;
    let mut count = before;
    let mut has_wide = false;
    let end = word_end(rows.len() - start);
    let mut rest = word;
    let mut bit = next_bit(rest, 0);
    while bit < end {
        let i = start + bit;
        let row = &rows[i].now;
        let is_zero = is_zero_at(row, q);
        kept = without_bit_if(kept, bit, is_zero);
        has_wide = has_wide | (row.is_wide & !is_zero);
        listed[count] = i as u32;
        let more = change_count(is_zero, i == r);
        count += more;
        rest = without_lowest(rest);
        bit = next_bit(rest, 0);
    }
    NotedBits {
        kept,
        count,
        has_wide,
    }
}

// 1 for a row with a number that isn't the pivot's.
#[inline]
fn change_count(is_zero: bool, is_own: bool) -> usize
    ensures few { result ≤ 1 }
    ensures none { result ≡ 0 → is_zero ≡ false → IsTrue is_own }
    ensures one { result ≡ 1 → is_own ≡ false }
{
    !(is_zero | is_own) as usize
}

// Whether the row's number of column q is 0.
#[inline]
fn is_zero_at(row: &MixedRow, q: u32) -> bool
    ensures { IsTrue result → mixed.number_of row.now q ≡ zero_ℚ }
{
    if row.is_wide {
        row.wide.number(q).is_zero()
    } else {
        !is_nonzero_at(&row.narrow, q as usize)
    }
}
