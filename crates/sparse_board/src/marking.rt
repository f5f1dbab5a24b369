//! Which numbers of the rows may differ from 0: a row isn't looked at for another.
ghost use Rattle.std.specs.Prelude.{◌≡◌, ◌+◌, ◌*◌, ◌<◌, ◌≤◌, ◌^◌, ℕ, IfOk, false, length, true};
ghost use Rattle.ratio_core.specs.Rational.{zero_ℚ};
ghost use Rattle.sparse_board.specs.Mixed as mixed;
ghost use Rattle.sparse_board.specs.Numbers.{number_of, width_of};
ghost use Rattle.sparse_board.specs.Rows.{AreSparseRowsWide};
ghost use Rattle.sparse_board.specs.Marks.{SameSizes, has};
ghost use Rattle.sparse_board.specs.Marking.{AreBitsMarked, AreNumbersMarked, KeepMarks, MarksNumbers, MarksRow, MarksUnits, MarksWord};
ghost use Rattle.whole_rows.specs.Rows as whole;

use crate::marks::Marks;
use crate::mixed_row::MixedRow;
use crate::row::Row;
use crate::sparse_row::SparseRow;
use crate::step::Step;
use std::alloc::{AllocError, Global};
use whole_rows::{NarrowRow, NarrowStep, lowest, without_lowest};

// The marks of the numbers of rows with this number of columns.
pub(crate) fn marks_of(alloc: Global, rows: &[Row], width: usize) -> Result<Marks, AllocError>
    requires wide { AreSparseRowsWide width rows.now }
    requires few { width < 2 ^ 32 }
    requires few_rows { length rows.now < 2 ^ 32 }
    ensures columns { IfOk result (λ marks. marks.columns ≡ width) }
    ensures rows { IfOk result (λ marks. marks.rows ≡ length rows.now) }
    ensures marked { IfOk result (λ marks. AreNumbersMarked width marks rows.now) }
{
    let mut marks = Marks::none(alloc, width, rows.len())?;
    for i in 0..rows.len() {
        mark(&rows[i].now, i, &mut marks);
    }
    Ok(marks)
}

// Marks the numbers of row i that aren't 0.
fn mark(row: &MixedRow, i: usize, marks: &mut Marks)
    requires row { i < marks.old.rows }
    requires columns { marks.old.columns ≡ mixed.width_of row.now }
    ensures marked { MarksRow row.now i marks.new }
    ensures kept { KeepMarks marks.old marks.new }
{
    if row.is_wide {
        mark_entries(&row.wide, i, marks);
    } else {
        mark_numbers(&row.narrow, i, row.width, marks);
    }
}

// The same of fractions.
fn mark_entries(row: &SparseRow, i: usize, marks: &mut Marks)
    requires row { i < marks.old.rows }
    requires columns { marks.old.columns ≡ width_of row.now }
    ensures marked { MarksNumbers (width_of row.now) (number_of row.now) i marks.new }
    ensures kept { KeepMarks marks.old marks.new }
{
    for k in 0..row.entries.len() {
        marks.set(row.entries[k].column as usize, i);
    }
}

// The same of whole numbers in this number of columns: of those that are marked in their row.
fn mark_numbers(row: &NarrowRow, i: usize, width: usize, marks: &mut Marks)
    requires row { i < marks.old.rows }
    requires columns { marks.old.columns ≡ width }
    requires wide { width ≤ whole.width_of row.now + 1 }
    ensures marked { MarksNumbers width (whole.number_of row.now) i marks.new }
    ensures kept { KeepMarks marks.old marks.new }
{
    for k in 0..row.marks.len() {
        mark_bits(row.marks[k], k * 64, i, width, marks);
    }
    mark_below(row.numbers.len(), i, width, marks);
}

// Marks the columns of a word's bits, whose first is of column `start`.
#[inline]
fn mark_bits(word: u64, start: usize, i: usize, width: usize, marks: &mut Marks)
    requires few { start < 2 ^ 63 }
    requires row { i < marks.old.rows }
    requires columns { marks.old.columns ≡ width }
    ensures marked { AreBitsMarked word start i width marks.new }
    ensures kept { KeepMarks marks.old marks.new }
{
    let mut rest = word;
    while rest != 0 {
        mark_below(start + lowest(rest), i, width, marks);
        rest = without_lowest(rest);
    }
}

// Marks column j if it is one of this number of columns.
#[inline]
fn mark_below(j: usize, i: usize, width: usize, marks: &mut Marks)
    requires row { i < marks.old.rows }
    requires columns { marks.old.columns ≡ width }
    ensures marked { j < width → has marks.new j i ≡ true }
    ensures kept { KeepMarks marks.old marks.new }
{
    if j < width {
        marks.set(j, i);
    }
}

// Marks where the rows that are marked in column q may differ from 0 once they are lowered by
// multiples of the step.
pub(crate) fn mark_step(step: &Step, q: u32, marks: &mut Marks)
    requires column { q < step.now.width }
    requires columns { marks.old.columns ≡ step.now.width }
    ensures kept { KeepMarks marks.old marks.new }
    ensures marked { MarksUnits step.now.width q (mixed.units_of step.now) marks.old marks.new }
{
    if step.is_narrow {
        return mark_narrow(&step.narrow, q, marks);
    }
    mark_wide(&step.wide, q, marks);
}

fn mark_wide(step: &SparseRow, q: u32, marks: &mut Marks)
    requires column { q < width_of step.now }
    requires columns { marks.old.columns ≡ width_of step.now }
    ensures kept { KeepMarks marks.old marks.new }
    ensures marked { MarksUnits (width_of step.now) q (number_of step.now) marks.old marks.new }
{
    for k in 0..step.entries.len() {
        marks.join(q as usize, step.entries[k].column as usize);
    }
}

#[inline(never)]
fn mark_narrow(step: &NarrowStep, q: u32, marks: &mut Marks)
    requires column { q < whole.width_of step.now.row + 1 }
    requires columns { marks.old.columns ≡ whole.width_of step.now.row + 1 }
    ensures kept { KeepMarks marks.old marks.new }
    ensures marked { MarksUnits (whole.width_of step.now.row + 1) q
        (whole.number_of step.now.row) marks.old marks.new }
{
    for k in 0..marks.stride() {
        let word = marks.word(q as usize, k);
        mark_word(step, k, word, marks);
    }
}

// The same of the rows of a word's bits, which is the k-th of a column: a word of 64 rows without one
// is passed over at once.
#[inline]
fn mark_word(step: &NarrowStep, k: usize, word: u64, marks: &mut Marks)
    requires columns { marks.old.columns ≡ whole.width_of step.now.row + 1 }
    requires place { k * 64 ≤ marks.old.rows }
    ensures kept { KeepMarks marks.old marks.new }
    ensures marked { MarksWord (whole.width_of step.now.row + 1) k word
        (whole.number_of step.now.row) marks.new }
{
    if word == 0 {
        return;
    }
    for n in 0..step.used {
        marks.join_word(step.columns[n] as usize, k, word);
    }
    marks.join_word(step.row.numbers.len(), k, word);
}
