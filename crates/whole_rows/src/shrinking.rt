//! A row that is lowered in 128 bits, and divided by what divides its new numerators and its old
//! denominator. It takes no memory: what is looked at first is worked out again.
ghost use Rattle.std.specs.Prelude.{◌≡◌, ◌+◌, ◌/◌, ◌<◌, ◌≤◌, ◌^◌, ◌*ℤ◌, IfSome, length, pos, slice_index_or, unsigned_abs};
ghost use Rattle.std.specs.Int.{◌∣◌};
ghost use Rattle.ratio_core.specs.Gcd.{gcd};
ghost use Rattle.whole_rows.specs.Over.{lowered_num};
ghost use Rattle.whole_rows.specs.ColumnMarks.{IsWordChanged, MarksCover, WordCovers, words_of};
ghost use Rattle.whole_rows.specs.Numerators.{AreShrunk, CanShrink};
ghost use Rattle.whole_rows.specs.Rows.{width_of};
ghost use Rattle.whole_rows.specs.Shrinking.{DividesTo, IsBelowOrSide, IsBoundedTo, IsMeasuredOn, IsSizedTo};

use crate::bits::{lowest, without_lowest};
use crate::marks::WORD;
use crate::narrow_row::NarrowRow;
use crate::plan::{LongMeasure, Measure};
use crate::quotients::{
    inverse_of, is_multiple, next_inverse, quotient_long, rest_long, short_quotient,
};
use crate::widening::lowered_long;
use ratio_core::narrow_divisor;

// What divides the row's denominator and each numerator of the row that is lowered, and how large
// the largest quotient is, where it is below 2^63.
pub(crate) fn shrunk_measure(
    row: &NarrowRow,
    step: &NarrowRow,
    over: u64,
    by: i64,
) -> Option<Measure>
    requires over { over < 2 ^ 63 }
    requires width { width_of step.now ≡ width_of row.now }
    ensures divides { IfSome result (λ measure.
        DividesTo row.now step.now over by (width_of row.now + 1) measure.common) }
    ensures bounded { IfSome result (λ measure. IsBoundedTo row.now step.now over by
        measure.common (width_of row.now + 1) measure.greatest) }
{
    let measure = measured_long(row, step, over, by);
    let greatest = short_quotient(measure.greatest, measure.common)?;
    Some(Measure {
        common: measure.common,
        greatest,
    })
}

// The same divisor, and how large the largest numerator is before it is divided: of the right side
// and of the columns that are marked in one of both.
fn measured_long(row: &NarrowRow, step: &NarrowRow, over: u64, by: i64) -> LongMeasure
    requires over { over < 2 ^ 63 }
    requires width { width_of step.now ≡ width_of row.now }
    ensures common { DividesTo row.now step.now over by (width_of row.now + 1) result.common }
    ensures greatest { IsSizedTo row.now step.now over by (width_of row.now + 1) result.greatest }
{
    let greatest = lowered_long(row.side, over, by, step.side).unsigned_abs();
    let common = lesser_divisor(greatest, row.den);
    let inverse = inverse_of(common);
    let mut measure = LongMeasure {
        common,
        inverse,
        greatest,
    };
    for k in 0..row.marks.len() {
        let word = row.marks[k] | step.marks[k];
        measure = measured_word(row, step, over, by, k * WORD, word, measure);
    }
    measure
}

// The same with the numerators at the bits of a word, whose first bit is of column `start`.
#[inline]
fn measured_word(
    row: &NarrowRow,
    step: &NarrowRow,
    over: u64,
    by: i64,
    start: usize,
    word: u64,
    before: LongMeasure,
) -> LongMeasure
    requires over { over < 2 ^ 63 }
    requires width { width_of step.now ≡ width_of row.now }
    requires covers { WordCovers word start row.now.numbers.items }
    requires step_covers { WordCovers word start step.now.numbers.items }
    requires before { IsMeasuredOn (IsBelowOrSide row.now start) row.now step.now over by
        before.common before.greatest }
    ensures { IsMeasuredOn (IsBelowOrSide row.now (start + 64)) row.now step.now over by
        result.common result.greatest }
{
    let mut common = before.common;
    let mut inverse = before.inverse;
    let mut greatest = before.greatest;
    let mut rest = word;
    while rest != 0 {
        let j = start + lowest(rest);
        let size = lowered_long(row.numbers[j], over, by, step.numbers[j]).unsigned_abs();
        let next = joined_long(size, common, inverse);
        inverse = next_inverse(inverse, common, next);
        common = next;
        greatest = greater_size(size, greatest);
        rest = without_lowest(rest);
    }
    LongMeasure {
        common,
        inverse,
        greatest,
    }
}

#[inline]
fn greater_size(a: u128, b: u128) -> u128
    ensures left { a ≤ result }
    ensures right { b ≤ result }
{
    if a < b { b } else { a }
}

// The common divisor with a size of 128 bits more, which usually is a multiple of it.
#[inline]
fn joined_long(size: u128, common: u64, inverse: u64) -> u64
    requires { 0 < common }
    ensures value { result ≡ gcd size common }
    ensures positive { 0 < result }
{
    if is_multiple(size, common, inverse) {
        return common;
    }
    lesser_divisor(size, common)
}

#[tactic(auto, using(ratio_core::specs::Gcd::remainders))]
fn lesser_divisor(size: u128, common: u64) -> u64
    requires { 0 < common }
    ensures value { result ≡ gcd size common }
    ensures positive { 0 < result }
{
    if common == 1 {
        return 1;
    }
    narrow_divisor(rest_long(size, common), common)
}

#[inline]
pub(crate) fn shrunk(number: i64, over: u64, by: i64, unit: i64, common: u64, inverse: u64) -> i64
    requires over { over < 2 ^ 63 }
    requires positive { 0 < common }
    requires small_common { common < 2 ^ 63 }
    requires exact { common ∣ unsigned_abs (lowered_num number over by unit) }
    requires small { unsigned_abs (lowered_num number over by unit) / common < 2 ^ 63 }
    ensures { lowered_num number over by unit ≡ result *ℤ pos common }
{
    quotient_long(lowered_long(number, over, by, unit), common, inverse)
}

// Lowers each number and divides it, in place. Those that aren't 0, before or after, are marked.
pub(crate) fn shrink_numbers(
    numbers: &mut [i64],
    marks: &[u64],
    over: u64,
    by: i64,
    step: &[i64],
    common: u64,
    inverse: u64,
)
    requires long { length step.now ≡ length numbers.old }
    requires over { over < 2 ^ 63 }
    requires positive { 0 < common }
    requires small_common { common < 2 ^ 63 }
    requires marks { length marks.now ≡ words_of (length numbers.old) }
    requires covers { MarksCover marks.now numbers.old }
    requires step_covers { MarksCover marks.now step.now }
    requires fits { CanShrink over by step.now common 0 numbers.old }
    ensures { AreShrunk over by step.now common (length numbers.old) numbers.old numbers.new }
{
    for k in 0..marks.len() {
        shrink_word(numbers, k * WORD, marks[k], over, by, step, common, inverse);
    }
}

// The same at the bits of a word, whose first bit is of column `start`.
#[inline]
fn shrink_word(
    numbers: &mut [i64],
    start: usize,
    word: u64,
    over: u64,
    by: i64,
    step: &[i64],
    common: u64,
    inverse: u64,
)
    requires long { length step.now ≡ length numbers.old }
    requires over { over < 2 ^ 63 }
    requires positive { 0 < common }
    requires small_common { common < 2 ^ 63 }
    requires covers { WordCovers word start numbers.old }
    requires step_covers { WordCovers word start step.now }
    requires fits { CanShrink over by step.now common start numbers.old }
    ensures { IsWordChanged (λ j x. lowered_num (slice_index_or numbers.old j (pos 0)) over by
        (slice_index_or step.now j (pos 0)) ≡ x *ℤ pos common) start numbers.old numbers.new }
{
    let mut rest = word;
    while rest != 0 {
        let j = start + lowest(rest);
        numbers[j] = shrunk(numbers[j], over, by, step[j], common, inverse);
        rest = without_lowest(rest);
    }
}
