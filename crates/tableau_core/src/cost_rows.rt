//! The two cost rows.
ghost use Rattle.std.specs.Prelude.{◌≡◌, ℕ, ◌<◌, ◌≤◌, List, ◌||◌, not, IsTrue, length, is_ok, OnOk};
ghost use Rattle.ratio_core.specs.Rational.{Rational};
ghost use Rattle.tableau_core.specs.BoardNumbers.{costs_fit};
ghost use Rattle.tableau_core.specs.Places.{CoversNonzeros};
ghost use Rattle.tableau_core.specs.Row.{IsLowered, IsPrepared, cell, lowering_fits};

use crate::fault::BoardOverflow;
use crate::kept::Row;
use ratio_core::Ratio;

#[derive(Drop)]
pub(crate) struct CostRows {
    // whether the first is in use: pivots leave it out from the end of the first phase on
    pub(crate) in_first: bool,
    pub(crate) first: Row,
    pub(crate) second: Row,
}

impl CostRows {
    // Works out what a pivot on column q makes of those in use, where `step` is the pivot's new
    // row.
    pub(crate) fn prepare(
        &mut self,
        q: usize,
        step: &[Ratio],
        places: &[usize],
    ) -> Result<(), BoardOverflow>
        requires within { q < length self.old.second.now.items }
        requires first_long { length self.old.first.now.items ≡ length self.old.second.now.items }
        requires step_long { length self.old.second.now.items ≤ length step.now }
        requires covers { CoversNonzeros places.now step.now }
        ensures use_stays { self.new.in_first ≡ self.old.in_first }
        ensures first_stays { self.new.first.now.items ≡ self.old.first.now.items }
        ensures second_stays { self.new.second.now.items ≡ self.old.second.now.items }
        ensures fits { is_ok result ≡ costs_fit (length self.old.second.now.items) q
            self.old.in_first (cell self.old.first.now.items) (cell self.old.second.now.items)
            (cell step.now) }
        ensures first_ready { OnOk result (IsTrue self.old.in_first
            → IsPrepared q step.now self.old.first.now.items self.new.first.next.items) }
        ensures second_ready { OnOk result
            (IsPrepared q step.now self.old.second.now.items self.new.second.next.items) }
    {
        prepare_if(self.in_first, &mut self.first, q, step, places)?;
        self.second.prepare(q, step, places)
    }

    // Puts in place what was worked out, at the places of the step.
    pub(crate) fn settle(&mut self, q: usize, places: &[usize])
        requires within { q < length self.old.second.now.items }
        requires first_long { length self.old.first.now.items ≡ length self.old.second.now.items }
        ensures use_stays { self.new.in_first ≡ self.old.in_first }
        ensures first_long { length self.new.first.now.items ≡ length self.old.first.now.items }
        ensures second_long { length self.new.second.now.items ≡ length self.old.second.now.items }
        ensures first_lowered { IsTrue self.old.in_first → (step : List Rational)
            → length self.old.first.now.items ≤ length step → CoversNonzeros places.now step
            → IsPrepared q step self.old.first.now.items self.old.first.next.items
            → IsLowered (cell self.old.first.now.items q) step
            self.old.first.now.items self.new.first.now.items }
        ensures second_lowered { (step : List Rational)
            → length self.old.second.now.items ≤ length step → CoversNonzeros places.now step
            → IsPrepared q step self.old.second.now.items self.old.second.next.items
            → IsLowered (cell self.old.second.now.items q) step
            self.old.second.now.items self.new.second.now.items }
    {
        settle_if(self.in_first, &mut self.first, q, places);
        self.second.settle(q, places);
    }
}

// The same of a row that may be out of use.
fn prepare_if(
    used: bool,
    row: &mut Row,
    q: usize,
    step: &[Ratio],
    places: &[usize],
) -> Result<(), BoardOverflow>
    requires within { q < length row.old.now.items }
    requires step_long { length row.old.now.items ≤ length step.now }
    requires covers { CoversNonzeros places.now step.now }
    ensures stays { row.new.now.items ≡ row.old.now.items }
    ensures fits { is_ok result ≡ (not used || lowering_fits q step.now row.old.now.items) }
    ensures ok { OnOk result
        (IsTrue used → IsPrepared q step.now row.old.now.items row.new.next.items) }
{
    if used {
        row.prepare(q, step, places)
    } else {
        Ok(())
    }
}

fn settle_if(used: bool, row: &mut Row, q: usize, places: &[usize])
    requires { q < length row.old.now.items }
    ensures lowered { IsTrue used → (step : List Rational)
        → length row.old.now.items ≤ length step → CoversNonzeros places.now step
        → IsPrepared q step row.old.now.items row.old.next.items
        → IsLowered (cell row.old.now.items q) step row.old.now.items row.new.now.items }
    ensures long { length row.new.now.items ≡ length row.old.now.items }
{
    if used {
        row.settle(q, places);
    }
}
