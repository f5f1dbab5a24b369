//! A row of whole numbers, or of fractions where 64 bits are not enough.
ghost use Rattle.std.specs.Prelude.{◌≡◌, ◌≤◌, ◌<◌, ◌+◌, ◌^◌, true};
ghost use Rattle.sparse_board.specs.Numbers as sparse;
ghost use Rattle.whole_rows.specs.Rows as whole;

use crate::narrowing::narrow_to;
use crate::sparse_row::SparseRow;
use crate::spreading::spread_lowered;
use crate::step::Step;
use ratio_core::Ratio;
use std::alloc::{AllocError, Global};
use std::mem;
use whole_rows::{LoweringPlan, NarrowRow, NarrowStep, number};

// There is room for the fractions where the row is wide. The whole numbers of a wide row mean
// nothing, nor do the fractions of a narrow one.
#[derive(Drop)]
pub(crate) struct MixedRow {
    pub(crate) width: usize,
    pub(crate) narrow: NarrowRow,
    pub(crate) wide: SparseRow,
    pub(crate) is_wide: bool,
    ghost few: { width < 2 ^ 32 },
    ghost room: { width ≤ whole.width_of narrow + 1 },
    ghost most: { sparse.width_of wide ≤ width },
    ghost full: { is_wide ≡ true → sparse.width_of wide ≡ width },
}

impl MixedRow {
    ghost use Rattle.std.specs.Prelude.{ℕ, false, IfOk};
    ghost use Rattle.ratio_core.specs.Rational.{◌*ℚ◌, ◌-ℚ◌};
    ghost use Rattle.whole_rows.specs.Rows.{CanLower, lowered_by};
    ghost use Rattle.sparse_board.specs.Mixed.{IsLeft, IsPlanned, IsSame, is_small, number_left, number_of, units_of, width_of};

    // A row of the fractions in `room`: of whole numbers, with room for them in `narrow`, where 64 bits
    // are enough. Else it keeps the fractions' room.
    pub(crate) fn new(
        alloc: Global,
        narrow: NarrowRow,
        room: &mut SparseRow,
        width: usize,
    ) -> MixedRow
        requires width { sparse.width_of room.old ≡ width }
        requires columns { width ≤ whole.width_of narrow + 1 }
        requires few { width < 2 ^ 32 }
        ensures width { width_of result ≡ width }
        ensures room { sparse.width_of room.new ≤ width }
        ensures numbers { (j : ℕ) → j < width
            → number_of result j ≡ sparse.number_of room.old j }
    {
        let mut narrow = narrow;
        let mut wide = SparseRow::closed(alloc);
        if narrow_to(room, &mut narrow) {
            return MixedRow {
                width,
                narrow,
                wide,
                is_wide: false,
            };
        }
        mem::swap(&mut wide, room);
        MixedRow {
            width,
            narrow,
            wide,
            is_wide: true,
        }
    }

    // Whether it is one of whole numbers in this number of columns that are small.
    #[inline(always)]
    pub(crate) fn is_small(&self, columns: usize) -> bool
        ensures { result ≡ is_small columns self.now }
    {
        !self.is_wide && self.narrow.numbers.len() == columns && self.narrow.is_small()
    }

    // The number of a column.
    pub(crate) fn number(&self, column: u32) -> Ratio
        ensures { result ≡ number_of self.now column }
    {
        if self.is_wide {
            self.wide.number(column)
        } else {
            number(&self.narrow, column as usize)
        }
    }

    // Becomes a row of whole numbers where that is possible.
    pub(crate) fn come_back(&mut self)
        ensures { IsSame self.old self.new }
    {
        if self.is_wide && narrow_to(&self.wide, &mut self.narrow) {
            self.is_wide = false;
        }
    }

    // Takes fractions in as many columns.
    #[inline(never)]
    pub(crate) fn take(&mut self, wide: &mut SparseRow)
        requires { sparse.width_of wide.old ≡ width_of self.old }
        ensures width { width_of self.new ≡ width_of self.old }
        ensures wide_width { sparse.width_of wide.new ≤ width_of self.old }
        ensures numbers { (j : ℕ) → j < width_of self.old
            → number_of self.new j ≡ sparse.number_of wide.old j }
    {
        mem::swap(&mut self.wide, wide);
        self.is_wide = true;
        self.come_back();
    }

    // Takes the numbers of a step in as many columns, which then has none.
    pub(crate) fn take_step(&mut self, step: &mut Step)
        requires { step.old.width ≡ width_of self.old }
        ensures width { width_of self.new ≡ width_of self.old }
        ensures step_width { step.new.width ≡ step.old.width }
        ensures numbers { (j : ℕ) → j < width_of self.old
            → number_of self.new j ≡ units_of step.old j }
    {
        if step.is_narrow {
            step.narrow.give(&mut self.narrow);
            self.is_wide = false;
        } else {
            step.is_narrow = true;
            self.take(&mut step.wide);
        }
    }

    // Brings a row of whole numbers over the denominator of the one that it is lowered to by its
    // number of column q times the step, and tells by what multiple of the step it is to be lowered
    // then. Where there is no plan for that it becomes one of fractions, and nothing is left.
    #[inline(always)]
    pub(crate) fn ready(
        &mut self,
        step: &NarrowStep,
        q: usize,
        plan: Option<LoweringPlan>,
        room: &mut SparseRow,
    ) -> i64
        requires narrow { self.old.is_wide ≡ false }
        requires most { sparse.width_of room.old ≤ width_of self.old }
        requires planned { IsPlanned q step.now.row self.old plan room.old }
        ensures width { width_of self.new ≡ width_of self.old }
        ensures most { sparse.width_of room.new ≤ width_of self.old }
        ensures left { IsLeft step.now.row self.new result }
        ensures numbers { (j : ℕ) → j < width_of self.old
            → number_left step.now.row self.new result j
            ≡ number_of self.old j -ℚ number_of self.old q *ℚ whole.number_of step.now.row j }
    {
        if let Some(plan) = plan {
            return self.narrow.ready(step, plan);
        }
        self.widen(step, q, room);
        0
    }

    // Lowers a row of whole numbers by a multiple of the step's numerators.
    #[inline(always)]
    pub(crate) fn lower_by(&mut self, by: i64, step: &NarrowStep)
        requires narrow { self.old.is_wide ≡ false }
        requires left { CanLower step.now.row self.old.narrow by }
        ensures width { width_of self.new ≡ width_of self.old }
        ensures numbers { (j : ℕ) → number_of self.new j
            ≡ lowered_by step.now.row self.old.narrow by j }
    {
        self.narrow.lower_by(by, step);
    }

    // Lowers a row of whole numbers by its number of column q times the step, in fractions. It can't
    // fail: each of them fits, and there is room for them.
    #[inline(never)]
    fn widen(&mut self, step: &NarrowStep, q: usize, room: &mut SparseRow)
        requires narrow { self.old.is_wide ≡ false }
        requires room { sparse.width_of room.old ≡ width_of self.old }
        ensures width { width_of self.new ≡ width_of self.old }
        ensures most { sparse.width_of room.new ≤ width_of self.old }
        ensures numbers { (j : ℕ) → j < width_of self.old → number_of self.new j
            ≡ number_of self.old j -ℚ number_of self.old q *ℚ whole.number_of step.now.row j }
    {
        spread_lowered(&self.narrow, &step.row, q, room);
        self.take(room);
    }
}
