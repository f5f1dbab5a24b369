//! The two cost rows.
ghost use Rattle.std.specs.Prelude.{◌≡◌, ◌<◌, ◌≤◌, ◌||◌, ℕ, IsTrue, not, OnOk};
ghost use Rattle.sparse_board.specs.Mixed.{IsBoth, IsMixedLowered, number_of, units_of, width_of};
ghost use Rattle.tableau_core.specs.BoardNumbers.{costs_fit, differences_fit};
ghost use Rattle.sparse_board.specs.Lowering.{IsMixedPrepared};
ghost use Rattle.sparse_board.specs.Testing.{IsTest};

use crate::row::Row;
use crate::step::Step;
use ratio_core::NumberFault;

#[derive(Drop)]
pub(crate) struct CostRows {
    // whether the first is in use: pivots leave it out from the end of the first phase on
    pub(crate) in_first: bool,
    pub(crate) first: Row,
    pub(crate) second: Row,
}

impl CostRows {
    // Works out what a pivot on column q makes of those in use, where `step` is the pivot's new
    // row. The right side of it is none of theirs.
    pub(crate) fn prepare(&mut self, q: u32, step: &Step) -> Result<(), NumberFault>
        requires column { q < width_of self.old.second.now }
        requires step_wide { width_of self.old.second.now ≤ step.now.width }
        requires first_wide { width_of self.old.first.now ≡ width_of self.old.second.now }
        requires both { IsBoth step.now }
        ensures use_stays { self.new.in_first ≡ self.old.in_first }
        ensures first_stays { self.new.first.now ≡ self.old.first.now }
        ensures second_stays { self.new.second.now ≡ self.old.second.now }
        ensures fits { IsTest (costs_fit (width_of self.old.second.now) q self.old.in_first
            (number_of self.old.first.now) (number_of self.old.second.now)
            (units_of step.now)) result }
        ensures first_ready { OnOk result
            (IsTrue self.old.in_first → IsMixedPrepared q step.now self.new.first) }
        ensures second_ready { OnOk result (IsMixedPrepared q step.now self.new.second) }
    {
        prepare_if(self.in_first, &mut self.first, q, step)?;
        self.second.prepare(q, step)
    }

    // Puts in place what was worked out.
    pub(crate) fn settle(&mut self, q: u32, step: &Step)
        requires first { IsTrue self.old.in_first → IsMixedPrepared q step.now self.old.first }
        requires second { IsMixedPrepared q step.now self.old.second }
        ensures use_stays { self.new.in_first ≡ self.old.in_first }
        ensures first_wide { width_of self.new.first.now ≡ width_of self.old.first.now }
        ensures first_lowered { IsTrue self.old.in_first
            → IsMixedLowered (number_of self.old.first.now q) (units_of step.now)
            self.old.first.now self.new.first.now }
        ensures second_lowered { IsMixedLowered (number_of self.old.second.now q)
            (units_of step.now)
            self.old.second.now self.new.second.now }
    {
        settle_if(self.in_first, &mut self.first, q, step);
        self.second.settle(q, step);
    }
}

// The same of a row that may be out of use.
#[inline(never)]
fn prepare_if(used: bool, row: &mut Row, q: u32, step: &Step) -> Result<(), NumberFault>
    requires width { width_of row.old.now ≤ step.now.width }
    requires column { q < width_of row.old.now }
    requires both { IsBoth step.now }
    ensures stays { row.new.now ≡ row.old.now }
    ensures fits { IsTest (not used || differences_fit (width_of row.old.now)
        (number_of row.old.now) (number_of row.old.now q) (units_of step.now)) result }
    ensures ok { OnOk result (IsTrue used → IsMixedPrepared q step.now row.new) }
{
    if used { row.prepare(q, step) } else { Ok(()) }
}

#[inline(never)]
fn settle_if(used: bool, row: &mut Row, q: u32, step: &Step)
    requires { IsTrue used → IsMixedPrepared q step.now row.old }
    ensures width { width_of row.new.now ≡ width_of row.old.now }
    ensures lowered { IsTrue used
        → IsMixedLowered (number_of row.old.now q) (units_of step.now) row.old.now row.new.now }
{
    if used {
        row.settle(q, step);
    }
}
