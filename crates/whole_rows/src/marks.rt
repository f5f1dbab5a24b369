//! Marks of columns, as bits of words: a row of many columns has few numbers other than 0, and a
//! number without a mark isn't read.
ghost use Rattle.std.specs.Prelude.{◌≡◌, ◌≢◌, ◌+◌, ◌*◌, ◌/◌, ◌<◌, ◌≤◌, ◌^◌, ℕ, ◌*ℤ◌, length, map, pos, slice_index, slice_index_or, take, unsigned_abs};
ghost use Rattle.whole_rows.specs.ColumnMarks.{AreMarksJoined, AreScaled, IsColumnMarked, IsRangeChanged, IsWordChanged, MarksCover, WordCovers, mark_of, words_of};
ghost use Rattle.whole_rows.specs.Listed.{ListsNonzeros};

use crate::bits::{lowest, with_bit, without_lowest};

// How many columns a word has.
pub(crate) const WORD: usize = 64;

// How many words there are for this number of columns.
pub(crate) fn word_count(width: usize) -> usize
    ensures { result ≡ words_of width }
{
    width / WORD + 1
}

// Marks column j.
#[inline]
pub(crate) fn mark(marks: &mut [u64], j: usize)
    requires { j / 64 < length marks.old }
    ensures { IsColumnMarked j marks.old marks.new }
{
    let word = with_bit(marks[j / WORD], j % WORD);
    marks[j / WORD] = word;
}

// Takes all marks away.
pub(crate) fn clear_marks(marks: &mut [u64])
    ensures long { length marks.new ≡ length marks.old }
    ensures words { (k : ℕ) → slice_index marks.new k ≡ 0 }
    ensures none { (j : ℕ) → mark_of marks.new j ≡ 0 }
{
    marks.fill(0);
}

// Marks each of `width` columns, and no other.
pub(crate) fn mark_all(marks: &mut [u64], width: usize)
    requires { length marks.old ≡ words_of width }
    ensures long { length marks.new ≡ length marks.old }
    ensures marked { (j : ℕ) → j < width → mark_of marks.new j ≡ 1 }
    ensures others { (j : ℕ) → width ≤ j → mark_of marks.new j ≡ 0 }
{
    clear_marks(marks);
    for j in 0..width {
        mark(marks, j);
    }
}

// Notes the words that have a mark, and tells how many there are.
pub(crate) fn note_words(marks: &[u64], words: &mut [u32]) -> usize
    requires long { length marks.now ≤ length words.old }
    requires few { length marks.now < 2 ^ 32 }
    ensures within { result ≤ length words.new }
    ensures lists { ListsNonzeros (take result words.new) (map pos marks.now) }
{
    let mut used = 0;
    for k in 0..marks.len() {
        words[used] = k as u32;
        let count = marked_count(marks[k]);
        used += count;
    }
    used
}

// 1 for a word with a mark.
#[inline]
fn marked_count(word: u64) -> usize
    ensures few { result ≤ 1 }
    ensures none { result ≡ 0 → word ≡ 0 }
    ensures one { result ≡ 1 → word ≢ 0 }
{
    (word != 0) as usize
}

// Marks the columns that another row has marked, whose words with a mark are these.
#[inline]
pub(crate) fn join_marks(marks: &mut [u64], others: &[u64], words: &[u32])
    requires long { length others.now ≡ length marks.old }
    requires lists { ListsNonzeros words.now (map pos others.now) }
    ensures { AreMarksJoined others.now marks.old marks.new }
{
    for n in 0..words.len() {
        let k = words[n] as usize;
        let word = marks[k] | others[k];
        marks[k] = word;
    }
}

// Multiplies the numbers, of which those that aren't 0 are marked. Mostly it is by 1.
#[inline]
pub(crate) fn scale_numbers(numbers: &mut [i64], marks: &[u64], over: u64)
    requires covers { MarksCover marks.now numbers.old }
    requires marks { length marks.now ≡ words_of (length numbers.old) }
    requires over { over < 2 ^ 63 }
    requires fits { (j : ℕ) → j < length numbers.old
        → unsigned_abs (slice_index_or numbers.old j (pos 0)) * over < 2 ^ 63 }
    ensures { AreScaled (pos over) (length numbers.old) numbers.old numbers.new }
{
    if over == 1 {
        return;
    }
    scale_marked(numbers, marks, over as i64);
}

// The same word by word.
#[inline(never)]
fn scale_marked(numbers: &mut [i64], marks: &[u64], over: i64)
    requires covers { MarksCover marks.now numbers.old }
    requires marks { length marks.now ≡ words_of (length numbers.old) }
    requires fits { (j : ℕ) → j < length numbers.old
        → unsigned_abs (slice_index_or numbers.old j (pos 0)) * unsigned_abs over < 2 ^ 63 }
    ensures { AreScaled over (length numbers.old) numbers.old numbers.new }
{
    for k in 0..marks.len() {
        scale_columns(numbers, k * WORD, marks[k], over);
    }
}

// Multiplies the numbers of a word's columns, of which those that aren't 0 are at its bits; the first
// bit is of column `start`. Where many bits are set the zeros between them are multiplied too: the
// next number needn't be found then.
#[inline]
fn scale_columns(numbers: &mut [i64], start: usize, word: u64, over: i64)
    requires start { start ≤ length numbers.old }
    requires covers { WordCovers word start numbers.old }
    requires fits { (j : ℕ) → start ≤ j → j < length numbers.old
        → unsigned_abs (slice_index_or numbers.old j (pos 0)) * unsigned_abs over < 2 ^ 63 }
    ensures { IsWordChanged (λ j x. x ≡ slice_index_or numbers.old j (pos 0) *ℤ over) start
        numbers.old numbers.new }
{
    let end = word_end(numbers.len(), start);
    if is_dense(word, end - start) {
        scale_all(numbers, start, end, over);
    } else {
        scale_word(numbers, start, word, over);
    }
}

// The end of the columns of a word whose first is column `start`.
#[inline]
fn word_end(width: usize, start: usize) -> usize
    requires { start ≤ width }
    ensures past { start ≤ result }
    ensures within { result ≤ width }
    ensures most { result ≤ start + 64 }
    ensures end { result < start + 64 → result ≡ width }
{
    if width - start < WORD {
        width
    } else {
        start + WORD
    }
}

// Whether a quarter of this number of columns have a bit.
#[inline]
fn is_dense(word: u64, columns: usize) -> bool {
    word.count_ones() as usize >= columns / 4
}

// Multiplies the numbers of the columns from `start` up to `end`.
#[inline]
fn scale_all(numbers: &mut [i64], start: usize, end: usize, over: i64)
    requires start { start ≤ end }
    requires end { end ≤ length numbers.old }
    requires fits { (j : ℕ) → start ≤ j → j < length numbers.old
        → unsigned_abs (slice_index_or numbers.old j (pos 0)) * unsigned_abs over < 2 ^ 63 }
    ensures { IsRangeChanged (λ j x. x ≡ slice_index_or numbers.old j (pos 0) *ℤ over) start end
        numbers.old numbers.new }
{
    for j in start..end {
        numbers[j] = scaled(numbers[j], over);
    }
}

// Multiplies the numbers at the bits of a word, whose first bit is of column `start`.
#[inline]
fn scale_word(numbers: &mut [i64], start: usize, word: u64, over: i64)
    requires covers { WordCovers word start numbers.old }
    requires fits { (j : ℕ) → start ≤ j → j < length numbers.old
        → unsigned_abs (slice_index_or numbers.old j (pos 0)) * unsigned_abs over < 2 ^ 63 }
    ensures { IsWordChanged (λ j x. x ≡ slice_index_or numbers.old j (pos 0) *ℤ over) start
        numbers.old numbers.new }
{
    let mut rest = word;
    while rest != 0 {
        let j = start + lowest(rest);
        numbers[j] = scaled(numbers[j], over);
        rest = without_lowest(rest);
    }
}

#[inline]
fn scaled(number: i64, over: i64) -> i64
    requires { unsigned_abs number * unsigned_abs over < 2 ^ 63 }
    ensures { result ≡ number *ℤ over }
{
    number * over
}
