//! A list of numerators that is rebuilt.
ghost use Rattle.std.specs.Prelude.{◌≡◌, length, pos};
ghost use Rattle.whole_rows.specs.ColumnMarks.{MarksCover, words_of};
ghost use Rattle.whole_rows.specs.Listed.{AreZeros, ListsNonzeros};
ghost use Rattle.whole_rows.specs.Numerators.{AreNumeratorsMade};
ghost use Rattle.whole_rows.specs.Rows.{numerator_of};

use crate::marks::mark_all;
use crate::narrow_row::NarrowRow;
use crate::widening::numerator;

// Makes each number 0.
pub(crate) fn clear_numbers(numbers: &mut [i64])
    ensures { AreNumeratorsMade (λ _. pos 0) (length numbers.old) numbers.old numbers.new }
{
    for j in 0..numbers.len() {
        numbers[j] = 0;
    }
}

// Makes the numbers of the listed columns 0, which are those that aren't.
pub(crate) fn clear_columns(numbers: &mut [i64], columns: &[u32])
    requires { ListsNonzeros columns.now numbers.old }
    ensures { AreZeros numbers.new }
{
    for k in 0..columns.len() {
        let j = columns[k] as usize;
        numbers[j] = 0;
    }
}

// Takes the numerators of a row, and its marks.
pub(crate) fn copy_marked(numbers: &mut [i64], marks: &mut [u64], row: &NarrowRow)
    requires { length marks.old ≡ words_of (length numbers.old) }
    ensures made { AreNumeratorsMade (numerator_of row.now)
        (length numbers.old) numbers.old numbers.new }
    ensures covers { MarksCover marks.new numbers.new }
{
    if numbers.len() == row.numbers.len() {
        numbers.copy_from_slice(&row.numbers);
        marks.copy_from_slice(&row.marks);
    } else {
        copy_numbers(numbers, row);
        mark_all(marks, numbers.len());
    }
}

// Takes the numerators of a row of other columns.
fn copy_numbers(numbers: &mut [i64], row: &NarrowRow)
    ensures { AreNumeratorsMade (numerator_of row.now)
        (length numbers.old) numbers.old numbers.new }
{
    for j in 0..numbers.len() {
        numbers[j] = numerator(row, j);
    }
}
