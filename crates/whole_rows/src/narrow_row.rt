//! A row of whole numbers over one denominator, in 64 bits.
ghost use Rattle.std.specs.Prelude.{◌≡◌, ◌+◌, ◌/◌, ◌<◌, ◌≤◌, ◌^◌, length};
ghost use Rattle.whole_rows.specs.ColumnMarks.{MarksCover, words_of};
ghost use Rattle.whole_rows.specs.Numerators.{AreNumeratorsWithin};

use crate::arithmetic::{common_divisor, exact, multiplied, next_bound, next_den, part, raised};
use crate::clearing::{clear_columns, clear_numbers, copy_marked};
use crate::dividing::{divide_numbers, greater, measured, quotient, with_sign};
use crate::listed::{less, lower_listed, note_columns, take_columns};
use crate::marks::{clear_marks, join_marks, mark, scale_numbers, word_count};
use crate::plan::{Division, LongPlan, LoweringPlan, ShortPlan};
use crate::quotients::inverse_of;
use crate::shrinking::{shrink_numbers, shrunk, shrunk_measure};
use crate::step::NarrowStep;
use crate::widening::numerator;
use std::alloc::{AllocError, Global};

// 2^31: the product of two sizes below it is below 2^62.
const SMALL: u64 = 2147483648;

/// A row of numbers, and a right side behind them: numerators over one denominator, not in lowest
/// terms. No numerator is larger than the bound.
#[derive(Drop)]
pub struct NarrowRow {
    /// The numerators by column.
    pub numbers: Vec<i64>,
    /// Marks of the columns where a numerator may differ from 0, as bits of words.
    pub marks: Vec<u64>,
    /// The numerator of the right side.
    pub side: i64,
    /// The denominator, above 0 and below 2^63.
    pub den: u64,
    /// Below 2^63.
    pub bound: u64,
    ghost above: { 0 < den },
    ghost small_den: { den < 2 ^ 63 },
    ghost small_bound: { bound < 2 ^ 63 },
    ghost within: { AreNumeratorsWithin bound numbers.items side },
    ghost marks_long: { length marks.items ≡ words_of (length numbers.items) },
    ghost covers: { MarksCover marks.items numbers.items },
}

impl NarrowRow {
    ghost use Rattle.std.specs.Prelude.{◌≢◌, ℕ, IsTrue, false, is_some, map, pos, take, true, unsigned_abs, IfOk, IfSome};
    ghost use Rattle.whole_rows.specs.Listed.{AreZeros, ListsNonzeros};
    ghost use Rattle.whole_rows.specs.Plans.{IsLongPlan, IsLoweringPlan, IsPlanBy, IsShortPlan, is_short, stays_by};
    ghost use Rattle.whole_rows.specs.Rows.{CanLower, IsDivision, IsNarrowDivided, IsNarrowReady, can_stay, is_small, lowered_by, number_of, numerator_of, stays_narrow, width_of};

    /// Zeros in this number of columns, over 1.
    pub fn zeros(alloc: Global, width: usize) -> Result<NarrowRow, AllocError>
        ensures width { IfOk result (λ row. width_of row ≡ width) }
        ensures den { IfOk result (λ row. row.den ≡ 1) }
        ensures zeros { IfOk result (λ row. (j : ℕ) → numerator_of row j ≡ pos 0) }
    {
        let numbers = vec![in alloc; 0i64; width]?;
        let marks = vec![in alloc; 0u64; word_count(width)]?;
        Ok(NarrowRow {
            numbers,
            marks,
            side: 0,
            den: 1,
            bound: 0,
        })
    }

    /// Takes the numerators of a row, its right side behind its columns.
    pub fn copy(&mut self, row: &NarrowRow)
        ensures width { width_of self.new ≡ width_of self.old }
        ensures den { self.new.den ≡ row.now.den }
        ensures numerators { (j : ℕ) → j ≤ width_of self.old
            → numerator_of self.new j ≡ numerator_of row.now j }
    {
        self.side = numerator(row, self.numbers.len());
        copy_marked(&mut self.numbers, &mut self.marks, row);
        self.den = row.den;
        self.bound = row.bound;
    }

    /// Zeros over this denominator.
    pub fn clear(&mut self, den: u64)
        requires above { 0 < den }
        requires small { den < 2 ^ 63 }
        ensures den { self.new.den ≡ den }
        ensures width { width_of self.new ≡ width_of self.old }
        ensures zeros { (j : ℕ) → numerator_of self.new j ≡ pos 0 }
    {
        clear_numbers(&mut self.numbers);
        clear_marks(&mut self.marks);
        self.side = 0;
        self.den = den;
        self.bound = 0;
    }

    /// Puts the numerator of a column; behind the columns stands the right side.
    pub fn put(&mut self, j: usize, numerator: i64)
        requires within { j ≤ width_of self.old }
        requires small { unsigned_abs numerator < 2 ^ 63 }
        ensures den { self.new.den ≡ self.old.den }
        ensures width { width_of self.new ≡ width_of self.old }
        ensures here { numerator_of self.new j ≡ numerator }
        ensures elsewhere { (k : ℕ) → k ≤ width_of self.old → k ≢ j
            → numerator_of self.new k ≡ numerator_of self.old k }
    {
        let size = numerator.unsigned_abs();
        self.bound = greater(size, self.bound);
        if j < self.numbers.len() {
            self.numbers[j] = numerator;
            mark(&mut self.marks, j);
        } else {
            self.side = numerator;
        }
    }

    /// How the row is lowered by its number of column q times the step and stays within 64 bits. There
    /// is no plan where it doesn't, or where the two have other columns.
    #[inline(always)]
    pub fn plan_for(&self, step: &NarrowStep, q: usize) -> Option<LoweringPlan>
        ensures planned { IfSome result (IsLoweringPlan q step.now.row self.now) }
        ensures exact { is_short result ≡ can_stay q step.now.row self.now }
    {
        let width = self.numbers.len();
        if q >= width || step.row.numbers.len() != width {
            return None;
        }
        self.plan(&step.row, q)
    }

    /// Whether the denominator and the bound are below 2^31. A row stays below 2^63 where it and a step
    /// over 1 are so small.
    #[inline(always)]
    pub fn is_small(&self) -> bool
        ensures { result ≡ is_small self.now }
    {
        self.den < SMALL && self.bound < SMALL
    }

    /// How the row is lowered by its number of column q times a step over 1, where it is known to stay
    /// below 2^63.
    #[inline(always)]
    pub fn unit_plan(&self, step: &NarrowStep, q: usize) -> LoweringPlan
        requires column { q < width_of self.now }
        requires width { width_of step.now.row ≡ width_of self.now }
        requires unit { step.now.row.den ≡ 1 }
        requires stays { stays_narrow q step.now.row self.now ≡ true }
        ensures { IsLoweringPlan q step.now.row self.now result }
    {
        let by = self.numbers[q];
        let size = by.unsigned_abs();
        let bound = raised(self.bound, size, step.row.bound);
        LoweringPlan::Short(ShortPlan {
            over: 1,
            by,
            bound,
            den: self.den,
        })
    }

    /// Brings the row over the denominator of the one that it is lowered to by a plan, and tells by
    /// what multiple of the step's numerators it is to be lowered then. By a long plan it is lowered at
    /// once, and nothing is left.
    #[inline(always)]
    pub fn ready(&mut self, step: &NarrowStep, plan: LoweringPlan) -> i64
        requires { (q : ℕ) × IsLoweringPlan q step.now.row self.old plan }
        ensures width { width_of self.new ≡ width_of self.old }
        ensures ready { (q : ℕ) → IsLoweringPlan q step.now.row self.old plan
            → IsNarrowReady q step.now.row self.old self.new result }
    {
        let words = &step.words[..step.words_used];
        match plan {
            LoweringPlan::Short(plan) => {
                self.bring_over(&step.row, words, plan);
                plan.by
            }
            LoweringPlan::Long(plan) => {
                self.lower_long(&step.row, words, plan);
                0
            }
        }
    }

    /// Lowers the row by a multiple of the step's numerators.
    #[inline(always)]
    pub fn lower_by(&mut self, by: i64, step: &NarrowStep)
        requires { CanLower step.now.row self.old by }
        ensures width { width_of self.new ≡ width_of self.old }
        ensures numbers { (j : ℕ) → number_of self.new j ≡ lowered_by step.now.row self.old by j }
    {
        lower_listed(
            &mut self.numbers,
            by,
            &step.row.numbers,
            &step.columns[..step.used],
        );
        self.side = less(self.side, by, step.row.side);
    }

    // The same as `ready` by a short plan: where the row may differ from 0 then it is marked, by the
    // words of the step that have a mark.
    #[inline(always)]
    fn bring_over(&mut self, step: &NarrowRow, words: &[u32], plan: ShortPlan)
        requires planned { (q : ℕ) × IsShortPlan q step.now self.old plan }
        requires words { ListsNonzeros words.now (map pos step.now.marks.items) }
        ensures width { width_of self.new ≡ width_of self.old }
        ensures ready { (q : ℕ) → IsShortPlan q step.now self.old plan
            → IsNarrowReady q step.now self.old self.new plan.by }
    {
        scale_numbers(&mut self.numbers, &self.marks, plan.over);
        join_marks(&mut self.marks, &step.marks, words);
        self.side = multiplied(self.side, plan.over);
        self.den = plan.den;
        self.bound = plan.bound;
    }

    // The same by a long plan, and nothing is left.
    #[inline(never)]
    fn lower_long(&mut self, step: &NarrowRow, words: &[u32], plan: LongPlan)
        requires planned { (q : ℕ) × IsLongPlan q step.now self.old plan }
        requires words { ListsNonzeros words.now (map pos step.now.marks.items) }
        ensures width { width_of self.new ≡ width_of self.old }
        ensures ready { (q : ℕ) → IsLongPlan q step.now self.old plan
            → IsNarrowReady q step.now self.old self.new (pos 0) }
    {
        let inverse = inverse_of(plan.common);
        join_marks(&mut self.marks, &step.marks, words);
        shrink_numbers(
            &mut self.numbers,
            &self.marks,
            plan.over,
            plan.by,
            &step.numbers,
            plan.common,
            inverse,
        );
        self.side = shrunk(
            self.side,
            plan.over,
            plan.by,
            step.side,
            plan.common,
            inverse,
        );
        self.den = plan.den;
        self.bound = plan.bound;
    }

    // The same as `plan_for`, of rows of the same columns.
    #[inline(always)]
    fn plan(&self, step: &NarrowRow, q: usize) -> Option<LoweringPlan>
        requires column { q < width_of self.now }
        requires width { width_of step.now ≡ width_of self.now }
        ensures planned { IfSome result (IsLoweringPlan q step.now self.now) }
        ensures exact { is_short result ≡ stays_narrow q step.now self.now }
    {
        let entry = self.numbers[q];
        let divisor = common_divisor(entry.unsigned_abs(), step.den);
        let over = part(step.den, divisor);
        let by = exact(entry, divisor);
        if let Some(plan) = self.short_plan(step, over, by) {
            return Some(LoweringPlan::Short(plan));
        }
        let measure = shrunk_measure(self, step, over, by)?;
        let den = next_den(part(self.den, measure.common), over)?;
        Some(LoweringPlan::Long(LongPlan {
            over,
            by,
            common: measure.common,
            bound: measure.greatest,
            den,
        }))
    }

    // How the row is lowered by this multiple in 64 bits, where its bound and its denominator stay
    // below 2^63.
    #[inline(always)]
    fn short_plan(&self, step: &NarrowRow, over: u64, by: i64) -> Option<ShortPlan>
        requires over { over < 2 ^ 63 }
        requires by { unsigned_abs by < 2 ^ 63 }
        ensures exact { is_some result ≡ stays_by over (unsigned_abs by) step.now self.now }
        ensures planned { IfSome result (IsPlanBy over by step.now self.now) }
    {
        let bound = next_bound(self.bound, over, by.unsigned_abs(), step.bound)?;
        let den = next_den(self.den, over)?;
        Some(ShortPlan {
            over,
            by,
            bound,
            den,
        })
    }

    // Notes the columns of the numerators that aren't 0, and tells how many there are. Marks of others
    // go.
    pub(crate) fn note(&mut self, columns: &mut [u32]) -> usize
        requires long { width_of self.old ≤ length columns.old }
        requires few { width_of self.old < 2 ^ 32 }
        ensures numbers { self.new.numbers ≡ self.old.numbers }
        ensures side { self.new.side ≡ self.old.side }
        ensures den { self.new.den ≡ self.old.den }
        ensures within { result ≤ length columns.new }
        ensures lists { ListsNonzeros (take result columns.new) self.new.numbers.items }
    {
        note_columns(&self.numbers, &mut self.marks, columns)
    }

    // Takes the numerators of a row where there are zeros, its right side behind its columns. Notes
    // the columns of those that aren't 0, and tells how many there are.
    pub(crate) fn take_row(&mut self, row: &NarrowRow, columns: &mut [u32]) -> usize
        requires zeros { AreZeros self.old.numbers.items }
        requires long { width_of self.old ≤ length columns.old }
        requires few { width_of self.old < 2 ^ 32 }
        ensures width { width_of self.new ≡ width_of self.old }
        ensures den { self.new.den ≡ row.now.den }
        ensures numerators { (j : ℕ) → j ≤ width_of self.old
            → numerator_of self.new j ≡ numerator_of row.now j }
        ensures within { result ≤ length columns.new }
        ensures lists { ListsNonzeros (take result columns.new) self.new.numbers.items }
    {
        if self.numbers.len() == row.numbers.len() {
            return self.take_marked(row, columns);
        }
        self.copy(row);
        self.note(columns)
    }

    // The same of a row of as many columns: only what it has marked is written.
    fn take_marked(&mut self, row: &NarrowRow, columns: &mut [u32]) -> usize
        requires width { width_of row.now ≡ width_of self.old }
        requires zeros { AreZeros self.old.numbers.items }
        requires long { width_of self.old ≤ length columns.old }
        requires few { width_of self.old < 2 ^ 32 }
        ensures width { width_of self.new ≡ width_of self.old }
        ensures den { self.new.den ≡ row.now.den }
        ensures numerators { (j : ℕ) → numerator_of self.new j ≡ numerator_of row.now j }
        ensures within { result ≤ length columns.new }
        ensures lists { ListsNonzeros (take result columns.new) self.new.numbers.items }
    {
        let used = take_columns(
            &row.numbers,
            &row.marks,
            &mut self.numbers,
            &mut self.marks,
            columns,
        );
        self.side = row.side;
        self.den = row.den;
        self.bound = row.bound;
        used
    }

    // Makes the numerators of the listed columns 0, which are those that aren't.
    pub(crate) fn clear_listed(&mut self, columns: &[u32])
        requires { ListsNonzeros columns.now self.old.numbers.items }
        ensures width { width_of self.new ≡ width_of self.old }
        ensures zeros { AreZeros self.new.numbers.items }
    {
        clear_columns(&mut self.numbers, columns);
    }

    // Makes the numerators 0 where they are marked, and takes the marks away.
    pub(crate) fn clear_marked(&mut self)
        ensures width { width_of self.new ≡ width_of self.old }
        ensures zeros { AreZeros self.new.numbers.items }
        ensures words { AreZeros (map pos self.new.marks.items) }
    {
        scale_numbers(&mut self.numbers, &self.marks, 0);
        clear_marks(&mut self.marks);
    }

    // Divides the row by its number of column q, in lowest terms: what divides all its numerators
    // goes out. Those that aren't 0 are of the listed columns, before and after.
    pub(crate) fn divide(&mut self, columns: &[u32], q: usize)
        requires column { q < width_of self.old }
        requires nonzero { numerator_of self.old q ≢ pos 0 }
        requires lists { ListsNonzeros columns.now self.old.numbers.items }
        ensures divided { IsNarrowDivided q self.old self.new }
        ensures lists { ListsNonzeros columns.now self.new.numbers.items }
    {
        let division = self.division(columns, q);
        divide_numbers(&mut self.numbers, columns, division.by);
        self.side = quotient(self.side, division.by);
        self.den = division.den;
        self.bound = division.bound;
    }

    // What the numerators are to be divided by, with the sign of the one of column q.
    fn division(&self, columns: &[u32], q: usize) -> Division
        requires column { q < width_of self.now }
        requires nonzero { numerator_of self.now q ≢ pos 0 }
        requires lists { ListsNonzeros columns.now self.now.numbers.items }
        ensures { IsDivision q self.now result }
    {
        let entry = self.numbers[q];
        let size = entry.unsigned_abs();
        let measure = measured(&self.numbers, columns, self.side, size, self.bound);
        Division {
            by: with_sign(entry, measure.common),
            den: part(size, measure.common),
            bound: part(measure.greatest, measure.common),
        }
    }
}
