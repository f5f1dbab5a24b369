//! The rows other than the pivot's.
ghost use Rattle.std.specs.Prelude.{◌≡◌, ◌+◌, ◌<◌, ℕ, IsTrue, length, OnOk};
ghost use Rattle.sparse_board.specs.Mixed.{IsBoth, units_of};
ghost use Rattle.sparse_board.specs.Rows.{AreSparseRowsLowered, AreSparseRowsWide, SameNow, SameWidths, rows_fit};
ghost use Rattle.sparse_board.specs.Changes.{AllStay, AreChanged, AreChangesPrepared, AreLeft, AreRowsListed, ListsChanges};
ghost use Rattle.sparse_board.specs.Lowering.{IsFinished, IsMixedReady};
ghost use Rattle.sparse_board.specs.Testing.{IsTest};

use crate::changes::Changes;
use crate::row::Row;
use crate::step::Step;
use ratio_core::NumberFault;

// Whether each row that changes is known to stay one of whole numbers: its numbers are small, and those
// of `step`, the pivot's new row, are small and over 1. No entry is looked at.
pub(crate) fn all_stay(rows: &[Row], q: u32, step: &Step, changes: &Changes) -> bool
    requires column { q + 1 < step.now.width }
    requires listed { AreRowsListed (length rows.now) changes.now.rows.items changes.now.count }
    ensures { IsTrue result → AllStay q step.now changes.now.rows.items changes.now.count rows.now }
{
    if !step.is_unit() {
        return false;
    }
    let columns = step.narrow.row.numbers.len();
    for k in 0..changes.count {
        let i = changes.rows[k] as usize;
        let row = &rows[i].now;
        if !row.is_small(columns) {
            return false;
        }
    }
    true
}

// Works out each row that changes, unless all are known to stay rows of whole numbers.
#[inline(never)]
pub(crate) fn prepare_rows(
    rows: &mut [Row],
    q: u32,
    step: &Step,
    changes: &Changes,
) -> Result<(), NumberFault>
    requires wide { AreSparseRowsWide step.now.width rows.old }
    requires column { q < step.now.width }
    requires listed { AreRowsListed (length rows.old) changes.now.rows.items changes.now.count }
    requires both { IsBoth step.now }
    requires staying { IsTrue step.now.all_stay
        → AllStay q step.now changes.now.rows.items changes.now.count rows.old }
    ensures stays { SameNow rows.old rows.new }
    ensures fits { (r : ℕ) → ListsChanges rows.old r q changes.now.rows.items changes.now.count
        → IsTest (rows_fit step.now.width r q (units_of step.now) rows.old) result }
    ensures ok { OnOk result (AreChangesPrepared q step.now changes.now.rows.items
        changes.now.count rows.new) }
{
    if step.all_stay {
        return Ok(());
    }
    for k in 0..changes.count {
        let i = changes.rows[k] as usize;
        let row = &mut rows[i];
        row.prepare(q, step)?;
    }
    Ok(())
}

// Puts each row that changes in place: in two passes, since the numbers of a row mostly lie far from
// those of the next. While they are lowered nothing is asked of a row that comes later.
#[inline(never)]
pub(crate) fn settle_rows(rows: &mut [Row], q: u32, step: &Step, changes: &Changes)
    requires listed { AreRowsListed (length rows.old) changes.now.rows.items changes.now.count }
    requires ready { AreChangesPrepared q step.now changes.now.rows.items changes.now.count
        rows.old }
    ensures widths { SameWidths rows.old rows.new }
    ensures lowered { (r : ℕ) → ListsChanges rows.old r q changes.now.rows.items changes.now.count
        → AreSparseRowsLowered r q (units_of step.now) rows.old rows.new }
{
    ready_rows(rows, q, step, changes);
    finish_rows(rows, step, changes);
}

// The same but for a multiple of the step by which each row is to be lowered then.
fn ready_rows(rows: &mut [Row], q: u32, step: &Step, changes: &Changes)
    requires listed { AreRowsListed (length rows.old) changes.now.rows.items changes.now.count }
    requires ready { AreChangesPrepared q step.now changes.now.rows.items changes.now.count
        rows.old }
    ensures { AreChanged (IsMixedReady q step.now) changes.now.rows.items changes.now.count
        rows.old rows.new }
{
    if step.all_stay {
        return ready_units(rows, q, step, changes);
    }
    for k in 0..changes.count {
        let i = changes.rows[k] as usize;
        let row = &mut rows[i];
        row.ready(q, step);
    }
}

// The same of rows that are known to stay rows of whole numbers, in a loop that asks nothing of each.
fn ready_units(rows: &mut [Row], q: u32, step: &Step, changes: &Changes)
    requires listed { AreRowsListed (length rows.old) changes.now.rows.items changes.now.count }
    requires staying { AllStay q step.now changes.now.rows.items changes.now.count rows.old }
    ensures { AreChanged (IsMixedReady q step.now) changes.now.rows.items changes.now.count
        rows.old rows.new }
{
    for k in 0..changes.count {
        let i = changes.rows[k] as usize;
        let row = &mut rows[i];
        row.ready_unit(q, step);
    }
}

// Lowers each row that changes by the multiple of the step that is left.
fn finish_rows(rows: &mut [Row], step: &Step, changes: &Changes)
    requires listed { AreRowsListed (length rows.old) changes.now.rows.items changes.now.count }
    requires left { AreLeft step.now changes.now.rows.items changes.now.count rows.old }
    ensures { AreChanged (IsFinished step.now) changes.now.rows.items changes.now.count
        rows.old rows.new }
{
    for k in 0..changes.count {
        let i = changes.rows[k] as usize;
        let row = &mut rows[i];
        row.finish(step);
    }
}
