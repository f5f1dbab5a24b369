//! The columns where a row isn't 0: a row is lowered there alone, which a pivot does most.
ghost use Rattle.std.specs.Prelude.{◌≡◌, ◌≢◌, ◌<◌, ◌+◌, ◌*◌, ◌≤◌, ◌^◌, ℕ, length, min, pos, slice_index_or, take, unsigned_abs};
ghost use Rattle.whole_rows.specs.Listed.{AreZeros, IsNotedTo, ListsNonzeros, lowered_once};
ghost use Rattle.whole_rows.specs.ColumnMarks.{IsWordChanged, MarksCover, WordCovers, words_of};
ghost use Rattle.whole_rows.specs.Numerators.{AreNumeratorsLowered, LoweringFits};

use crate::bits::{lowest, without_bit_if, without_lowest};
use crate::marks::WORD;

// Notes the columns of the numbers that aren't 0, and tells how many there are. The marks of zeros
// go.
pub(crate) fn note_columns(numbers: &[i64], marks: &mut [u64], columns: &mut [u32]) -> usize
    requires covers { MarksCover marks.old numbers.now }
    requires marks { length marks.old ≡ words_of (length numbers.now) }
    requires long { length numbers.now ≤ length columns.old }
    requires few { length numbers.now < 2 ^ 32 }
    ensures long { length marks.new ≡ length marks.old }
    ensures covers { MarksCover marks.new numbers.now }
    ensures within { result ≤ length columns.new }
    ensures lists { ListsNonzeros (take result columns.new) numbers.now }
{
    let mut used = 0;
    for k in 0..marks.len() {
        let noted = note_word(numbers, k * WORD, marks[k], columns, used);
        used = noted.used;
        marks[k] = noted.kept;
    }
    used
}

// How many columns are noted, and the bits of those of a word.
#[derive(Clone, Copy, Drop)]
struct Noted {
    used: usize,
    kept: u64,
}

// Notes those at the bits of a word, whose first bit is of column `start`, behind the others. A
// column is written before its number is read: which are 0 can't be foreseen.
#[inline]
fn note_word(numbers: &[i64], start: usize, word: u64, columns: &mut [u32], noted: usize) -> Noted
    requires covers { WordCovers word start numbers.now }
    requires few { length numbers.now < 2 ^ 32 }
    requires noted { IsNotedTo numbers.now columns.old noted start }
    ensures noted { IsNotedTo numbers.now columns.new result.used
        (min (start + 64) (length numbers.now)) }
    ensures kept { WordCovers result.kept start numbers.now }
{
    let mut used = noted;
    let mut kept = word;
    let mut rest = word;
    while rest != 0 {
        let bit = lowest(rest);
        let j = start + bit;
        columns[used] = j as u32;
        let count = nonzero_count(numbers[j]);
        used += count;
        kept = without_bit_if(kept, bit, count == 0);
        rest = without_lowest(rest);
    }
    Noted { used, kept }
}

// Takes the marked numbers of another row where there are zeros, and notes the columns of those
// that aren't 0, which alone are marked then. Tells how many there are.
pub(crate) fn take_columns(
    source: &[i64],
    from: &[u64],
    numbers: &mut [i64],
    marks: &mut [u64],
    columns: &mut [u32],
) -> usize
    requires covers { MarksCover from.now source.now }
    requires words { length from.now ≡ words_of (length source.now) }
    requires zeros { AreZeros numbers.old }
    requires wide { length numbers.old ≡ length source.now }
    requires marks { length marks.old ≡ length from.now }
    requires long { length source.now ≤ length columns.old }
    requires few { length source.now < 2 ^ 32 }
    ensures numbers { numbers.new ≡ source.now }
    ensures covers { MarksCover marks.new source.now }
    ensures within { result ≤ length columns.new }
    ensures lists { ListsNonzeros (take result columns.new) source.now }
{
    let mut used = 0;
    for k in 0..from.len() {
        let noted = take_word(source, k * WORD, from[k], numbers, columns, used);
        used = noted.used;
        marks[k] = noted.kept;
    }
    used
}

// Takes those at the bits of a word, and notes them as `note_word` does.
#[inline]
fn take_word(
    source: &[i64],
    start: usize,
    word: u64,
    numbers: &mut [i64],
    columns: &mut [u32],
    noted: usize,
) -> Noted
    requires covers { WordCovers word start source.now }
    requires few { length source.now < 2 ^ 32 }
    requires wide { length numbers.old ≡ length source.now }
    requires zeros { (j : ℕ) → start ≤ j → slice_index_or numbers.old j (pos 0) ≡ pos 0 }
    requires noted { IsNotedTo source.now columns.old noted start }
    ensures taken { IsWordChanged (λ j x. x ≡ slice_index_or source.now j (pos 0)) start
        numbers.old numbers.new }
    ensures noted { IsNotedTo source.now columns.new result.used
        (min (start + 64) (length source.now)) }
    ensures kept { WordCovers result.kept start source.now }
{
    let mut used = noted;
    let mut kept = word;
    let mut rest = word;
    while rest != 0 {
        let bit = lowest(rest);
        let j = start + bit;
        let number = source[j];
        numbers[j] = number;
        columns[used] = j as u32;
        let count = nonzero_count(number);
        used += count;
        kept = without_bit_if(kept, bit, count == 0);
        rest = without_lowest(rest);
    }
    Noted { used, kept }
}

// 1 for a number other than 0.
#[inline]
fn nonzero_count(number: i64) -> usize
    ensures few { result ≤ 1 }
    ensures none { result ≡ 0 → number ≡ pos 0 }
    ensures one { result ≡ 1 → number ≢ pos 0 }
{
    (number != 0) as usize
}

// Lowers the numbers of the listed columns by a multiple of the step's, in place. The row's
// denominator is a multiple of the step's, or was made one.
pub(crate) fn lower_listed(numbers: &mut [i64], by: i64, step: &[i64], columns: &[u32])
    requires long { length step.now ≡ length numbers.old }
    requires lists { ListsNonzeros columns.now step.now }
    requires fits { LoweringFits 1 by step.now numbers.old }
    ensures { AreNumeratorsLowered 1 by step.now (length numbers.old) numbers.old numbers.new }
{
    for k in 0..columns.len() {
        let j = columns[k] as usize;
        numbers[j] = less(numbers[j], by, step[j]);
    }
}

// A numerator lowered, where both parts stay below 2^63 together.
#[inline]
pub(crate) fn less(number: i64, by: i64, unit: i64) -> i64
    requires { unsigned_abs number + unsigned_abs by * unsigned_abs unit < 2 ^ 63 }
    ensures { result ≡ lowered_once number by unit }
{
    number - by * unit
}
