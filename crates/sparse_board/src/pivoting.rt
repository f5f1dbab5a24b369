//! A pivot worked out beside what stands.
ghost use Rattle.std.specs.Prelude.{◌≡◌, ◌≢◌, ◌+◌, ◌<◌, ℕ, length, OnOk};
ghost use Rattle.ratio_core.specs.Rational.{zero_ℚ};
ghost use Rattle.tableau_core.specs.BoardNumbers.{IsSettled, numbers_fit, quotient_at, quotients_fit};
ghost use Rattle.sparse_board.specs.Mixed.{IsBoth, units_of, width_of};
ghost use Rattle.sparse_board.specs.Rows.{AreSparseRowsWide, SameNow, number_in_row, numbers_in};
ghost use Rattle.sparse_board.specs.Marks.{SameSizes};
ghost use Rattle.sparse_board.specs.Marking.{AreNumbersMarked};
ghost use Rattle.sparse_board.specs.Pivoting.{IsBoardReady};
ghost use Rattle.sparse_board.specs.Testing.{IsTest};

use crate::changes::Changes;
use crate::cost_rows::CostRows;
use crate::marking::mark_step;
use crate::marks::Marks;
use crate::row::Row;
use crate::rows::{all_stay, prepare_rows, settle_rows};
use crate::step::Step;
use ratio_core::NumberFault;

// Works out what a pivot makes of the rows and of the cost rows in use, and changes nothing that
// stands but marks of zeros. The pivot's new row goes into `step`.
pub(crate) fn prepare_pivot(
    rows: &mut [Row],
    costs: &mut CostRows,
    step: &mut Step,
    marks: &mut Marks,
    changes: &mut Changes,
    r: usize,
    q: u32,
) -> Result<(), NumberFault>
    requires row { r < length rows.old }
    requires column { q + 1 < step.old.width }
    requires wide { AreSparseRowsWide step.old.width rows.old }
    requires columns { marks.old.columns ≡ step.old.width }
    requires count { marks.old.rows ≡ length rows.old }
    requires marked { AreNumbersMarked step.old.width marks.old rows.old }
    requires room { length changes.old.rows.items ≡ length rows.old }
    requires step_wide { step.old.width ≡ width_of costs.old.second.now + 1 }
    requires first_wide { width_of costs.old.first.now ≡ width_of costs.old.second.now }
    requires nonzero { number_in_row rows.old r q ≢ zero_ℚ }
    ensures rows_stay { SameNow rows.old rows.new }
    ensures use_stays { costs.new.in_first ≡ costs.old.in_first }
    ensures first_stays { costs.new.first.now ≡ costs.old.first.now }
    ensures second_stays { costs.new.second.now ≡ costs.old.second.now }
    ensures step_wide { step.new.width ≡ step.old.width }
    ensures room { length changes.new.rows.items ≡ length changes.old.rows.items }
    ensures sizes { SameSizes marks.old marks.new }
    ensures marked { AreNumbersMarked step.old.width marks.new rows.old }
    ensures fits { IsTest (numbers_fit (width_of costs.old.second.now) r q costs.old.in_first
        (numbers_in rows.old costs.old.first.now costs.old.second.now)) result }
    ensures ok { OnOk result (IsBoardReady rows.new r q changes.new.rows.items
        changes.new.count costs.new step.new) }
{
    let has_wide = changes.note(rows, r, q, marks);
    let asked = has_wide || costs.first.now.is_wide || costs.second.now.is_wide;
    divide_row(rows, r, q, asked, step)?;
    step.all_stay = all_stay(rows, q, step, changes);
    prepare_rows(rows, q, step, changes)?;
    costs.prepare(q, step)
}

// Row r divided by its number in column q.
fn divide_row(
    rows: &[Row],
    r: usize,
    q: u32,
    asked: bool,
    step: &mut Step,
) -> Result<(), NumberFault>
    requires row { r < length rows.now }
    requires column { q + 1 < step.old.width }
    requires wide { AreSparseRowsWide step.old.width rows.now }
    requires nonzero { number_in_row rows.now r q ≢ zero_ℚ }
    ensures width { step.new.width ≡ step.old.width }
    ensures fits { IsTest (quotients_fit step.old.width
        (number_in_row rows.now r) (number_in_row rows.now r q)) result }
    ensures ok { OnOk result ((j : ℕ) → j < step.old.width
        → units_of step.new j ≡ quotient_at (number_in_row rows.now) r q j) }
    ensures both { OnOk result (IsBoth step.new) }
{
    let row = &rows[r].now;
    step.set(row, q, asked)
}

// Puts a pivot that was worked out in place.
pub(crate) fn settle_pivot(
    rows: &mut [Row],
    costs: &mut CostRows,
    step: &mut Step,
    marks: &mut Marks,
    changes: &Changes,
    r: usize,
    q: u32,
)
    requires row { r < length rows.old }
    requires column { q + 1 < step.old.width }
    requires wide { AreSparseRowsWide step.old.width rows.old }
    requires columns { marks.old.columns ≡ step.old.width }
    requires count { marks.old.rows ≡ length rows.old }
    requires marked { AreNumbersMarked step.old.width marks.old rows.old }
    requires ready { IsBoardReady rows.old r q changes.now.rows.items
        changes.now.count costs.old step.old }
    ensures wide { AreSparseRowsWide step.old.width rows.new }
    ensures step_wide { step.new.width ≡ step.old.width }
    ensures use_stays { costs.new.in_first ≡ costs.old.in_first }
    ensures first_wide { width_of costs.new.first.now ≡ width_of costs.old.first.now }
    ensures second_wide { width_of costs.new.second.now ≡ width_of costs.old.second.now }
    ensures settled { (w : ℕ) → step.old.width ≡ w + 1
        → width_of costs.old.first.now ≡ w → width_of costs.old.second.now ≡ w
        → IsSettled w r q costs.old.in_first
        (numbers_in rows.old costs.old.first.now costs.old.second.now)
        (numbers_in rows.new costs.new.first.now costs.new.second.now) }
    ensures sizes { SameSizes marks.old marks.new }
    ensures marked { AreNumbersMarked step.old.width marks.new rows.new }
{
    settle_rows(rows, q, step, changes);
    mark_step(step, q, marks);
    costs.settle(q, step);
    let row = &mut rows[r];
    row.exchange(step);
}
