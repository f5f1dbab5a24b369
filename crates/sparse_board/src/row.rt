//! A row of the board, and the one that comes after it.
ghost use Rattle.std.specs.Prelude.{◌≡◌, ◌+◌, ◌<◌, ◌≤◌, ◌^◌, ◌&&◌, ℕ, not, false, OnOk};
ghost use Rattle.sparse_board.specs.Numbers as sparse;
ghost use Rattle.sparse_board.specs.Mixed.{IsBoth, number_of, units_of, width_of};
ghost use Rattle.whole_rows.specs.Rows as whole;

use crate::lowering::lower_mixed;
use crate::mixed_row::MixedRow;
use crate::sparse_row::SparseRow;
use crate::step::Step;
use ratio_core::NumberFault;
use std::alloc::{AllocError, Global};
use whole_rows::{LoweringPlan, NarrowRow};

// Room for the next row's fractions is taken before the first pivot that asks for it.
#[derive(Drop)]
pub(crate) struct Row {
    pub(crate) now: MixedRow,
    pub(crate) next: SparseRow,
    // whether a pivot that was worked out changes it
    changes: bool,
    // how a pivot that was worked out lowers it, where it stays a row of whole numbers
    plan: Option<LoweringPlan>,
    // by what multiple of the pivot's new row it is still to be lowered
    left: i64,
    ghost most: { sparse.width_of next ≤ width_of now },
}

impl Row {
    ghost use Rattle.tableau_core.specs.BoardNumbers.{differences_fit};
    ghost use Rattle.sparse_board.specs.Mixed.{IsLeft, IsMixedLowered, StaysWhole};
    ghost use Rattle.sparse_board.specs.Lowering.{IsFinished, IsMixedPrepared, IsMixedReady, IsRowPlanned};
    ghost use Rattle.sparse_board.specs.Testing.{IsTest};

    // A row of the fractions in `room`, with room for whole numbers.
    pub(crate) fn new(alloc: Global, narrow: NarrowRow, room: &mut SparseRow, width: usize) -> Row
        requires width { sparse.width_of room.old ≡ width }
        requires columns { width ≤ whole.width_of narrow + 1 }
        requires few { width < 2 ^ 32 }
        ensures width { width_of result.now ≡ width }
        ensures room { sparse.width_of room.new ≤ width }
        ensures numbers { (j : ℕ) → j < width
            → number_of result.now j ≡ sparse.number_of room.old j }
    {
        Row {
            now: MixedRow::new(alloc, narrow, room, width),
            next: SparseRow::closed(alloc),
            changes: false,
            plan: None,
            left: 0,
        }
    }

    // A row of whole numbers.
    pub(crate) fn of_whole(alloc: Global, narrow: NarrowRow, width: usize) -> Row
        requires columns { width ≤ whole.width_of narrow + 1 }
        requires few { width < 2 ^ 32 }
        ensures width { width_of result.now ≡ width }
        ensures numbers { (j : ℕ) → number_of result.now j ≡ whole.number_of narrow j }
    {
        Row {
            now: MixedRow {
                width,
                narrow,
                wide: SparseRow::closed(alloc),
                is_wide: false,
            },
            next: SparseRow::closed(alloc),
            changes: false,
            plan: None,
            left: 0,
        }
    }

    // Works out what a pivot on column q makes of the row, where `step` is the pivot's new row. A
    // row of whole numbers passes each test of such a step, and is lowered in place.
    #[inline(always)]
    pub(crate) fn prepare(&mut self, q: u32, step: &Step) -> Result<(), NumberFault>
        requires width { width_of self.old.now ≤ step.now.width }
        requires column { q < width_of self.old.now }
        requires both { IsBoth step.now }
        ensures stays { self.new.now ≡ self.old.now }
        ensures fits { IsTest (differences_fit (width_of self.old.now)
            (number_of self.old.now) (number_of self.old.now q) (units_of step.now)) result }
        ensures ok { OnOk result (IsMixedPrepared q step.now self.new) }
    {
        if is_in_place(&self.now, step) {
            return Ok(self.make_plan(q, step)?);
        }
        self.prepare_beside(q, step)
    }

    // The same of a row that isn't lowered in place.
    #[inline(never)]
    fn prepare_beside(&mut self, q: u32, step: &Step) -> Result<(), NumberFault>
        requires width { width_of self.old.now ≤ step.now.width }
        requires column { q < width_of self.old.now }
        requires both { IsBoth step.now }
        requires beside { (not self.old.now.is_wide && step.now.is_narrow) ≡ false }
        ensures stays { self.new.now ≡ self.old.now }
        ensures fits { IsTest (differences_fit (width_of self.old.now)
            (number_of self.old.now) (number_of self.old.now q) (units_of step.now)) result }
        ensures ok { OnOk result (IsMixedPrepared q step.now self.new) }
    {
        let by = self.now.number(q);
        if by.is_zero() {
            self.changes = false;
            return Ok(());
        }
        self.next.open(self.now.width)?;
        self.changes = true;
        Ok(lower_mixed(&self.now, &by, step, &mut self.next)?)
    }

    // Plans how a row of whole numbers is lowered, or takes room for the fractions of one that can't
    // stay so.
    #[inline(always)]
    fn make_plan(&mut self, q: u32, step: &Step) -> Result<(), AllocError>
        ensures stays { self.new.now ≡ self.old.now }
        ensures planned { OnOk result (IsRowPlanned q step.now self.new) }
    {
        if let Some(plan) = self.now.narrow.plan_for(&step.narrow, q as usize) {
            self.plan = Some(plan);
            return Ok(());
        }
        self.plan = None;
        self.next.open(self.now.width)
    }

    // Puts in place what was worked out.
    pub(crate) fn settle(&mut self, q: u32, step: &Step)
        requires { IsMixedPrepared q step.now self.old }
        ensures { IsMixedLowered (number_of self.old.now q) (units_of step.now) self.old.now self.new.now }
    {
        self.ready(q, step);
        self.finish(step);
    }

    // The same, but for a multiple of the step by which a row of whole numbers is to be lowered then.
    #[inline(always)]
    pub(crate) fn ready(&mut self, q: u32, step: &Step)
        requires { IsMixedPrepared q step.now self.old }
        ensures { IsMixedReady q step.now self.old self.new }
    {
        if is_in_place(&self.now, step) {
            self.left = self
                .now
                .ready(&step.narrow, q as usize, self.plan, &mut self.next);
            return;
        }
        self.left = 0;
        if self.changes {
            self.now.take(&mut self.next);
        }
    }

    // The same of a row that is known to stay one of whole numbers, of which nothing was worked out.
    #[inline(always)]
    pub(crate) fn ready_unit(&mut self, q: u32, step: &Step)
        requires { StaysWhole q step.now self.old.now }
        ensures { IsMixedReady q step.now self.old self.new }
    {
        let plan = self.now.narrow.unit_plan(&step.narrow, q as usize);
        self.left = self
            .now
            .ready(&step.narrow, q as usize, Some(plan), &mut self.next);
    }

    // Lowers the row by the multiple of the step that is left.
    #[inline(always)]
    pub(crate) fn finish(&mut self, step: &Step)
        requires { IsLeft step.now.narrow.row self.old.now self.old.left }
        ensures { IsFinished step.now self.old self.new }
    {
        if self.left == 0 {
            return;
        }
        self.now.lower_by(self.left, &step.narrow);
    }

    // Takes the numbers of a step of as many columns.
    pub(crate) fn exchange(&mut self, step: &mut Step)
        requires { step.old.width ≡ width_of self.old.now }
        ensures width { width_of self.new.now ≡ width_of self.old.now }
        ensures step_width { step.new.width ≡ step.old.width }
        ensures now { (j : ℕ) → j < width_of self.old.now
            → number_of self.new.now j ≡ units_of step.old j }
    {
        self.now.take_step(step);
    }
}

// Whether a row of whole numbers is lowered by such a step.
#[inline]
fn is_in_place(row: &MixedRow, step: &Step) -> bool
    ensures { result ≡ (not row.now.is_wide && step.now.is_narrow) }
{
    !row.is_wide && step.is_narrow
}
