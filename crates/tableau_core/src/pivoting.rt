//! A pivot worked out beside what stands.
ghost use Rattle.std.specs.Prelude.{◌≡◌, ◌≢◌, ◌+◌, ◌<◌, ◌≤◌, ℕ, length, take, is_ok, IfOk, OnOk};
ghost use Rattle.ratio_core.specs.Rational.{zero_ℚ};
ghost use Rattle.tableau_core.specs.BoardNumbers.{IsSettled, numbers_fit, quotients_fit};
ghost use Rattle.tableau_core.specs.Places.{CoversNonzeros};
ghost use Rattle.tableau_core.specs.Row.{AllFit, IsDivided, cell};
ghost use Rattle.tableau_core.specs.Rows.{AreWide, now_at, numbers_in};
ghost use Rattle.tableau_core.specs.Pivoting.{IsReady};

use crate::cost_rows::CostRows;
use crate::fault::BoardOverflow;
use crate::kept::Row;
use crate::places::note_places;
use crate::row::divide;
use crate::rows::{prepare_rows, settle_rows};
use ratio_core::Ratio;

// Works out what a pivot makes of the rows and of the cost rows in use, and changes nothing that
// stands. The pivot's new row goes into `step`, and where it isn't 0 into `places`: tells how many
// places there are.
pub(crate) fn prepare_pivot(
    rows: &mut [Row],
    costs: &mut CostRows,
    step: &mut [Ratio],
    places: &mut [usize],
    r: usize,
    q: usize,
) -> Result<usize, BoardOverflow>
    requires places_long { length step.old ≤ length places.old }
    requires row { r < length rows.old }
    requires wide { AreWide (length step.old) rows.old }
    requires column { q < length costs.old.second.now.items }
    requires first_long { length costs.old.first.now.items ≡ length costs.old.second.now.items }
    requires step_long { length step.old ≡ length costs.old.second.now.items + 1 }
    requires step_fits { AllFit step.old }
    requires nonzero { cell (now_at rows.old r) q ≢ zero_ℚ }
    ensures rows_stay { (i : ℕ) → now_at rows.new i ≡ now_at rows.old i }
    ensures use_stays { costs.new.in_first ≡ costs.old.in_first }
    ensures first_stays { costs.new.first.now.items ≡ costs.old.first.now.items }
    ensures second_stays { costs.new.second.now.items ≡ costs.old.second.now.items }
    ensures step_fits { AllFit step.new }
    ensures fits { is_ok result ≡ numbers_fit (length costs.old.second.now.items) r q
        costs.old.in_first
        (numbers_in rows.old costs.old.first.now.items costs.old.second.now.items) }
    ensures used { IfOk result (λ used. used ≤ length places.new) }
    ensures covers { IfOk result (λ used. CoversNonzeros (take used places.new) step.new) }
    ensures ok { OnOk result (IsReady rows.new r q costs.new step.new) }
{
    divide_row(rows, r, q, step)?;
    let used = note_places(step, places);
    let places = &places[..used];
    prepare_rows(rows, r, q, step, places)?;
    costs.prepare(q, step, places)?;
    Ok(used)
}

// Row r divided by its number in column q.
fn divide_row(rows: &[Row], r: usize, q: usize, step: &mut [Ratio]) -> Result<(), BoardOverflow>
    requires row { r < length rows.now }
    requires long { length step.old ≡ length (now_at rows.now r) }
    requires column { q < length (now_at rows.now r) }
    requires step_fits { AllFit step.old }
    requires nonzero { cell (now_at rows.now r) q ≢ zero_ℚ }
    ensures step_fits { AllFit step.new }
    ensures fits { is_ok result ≡ quotients_fit (length (now_at rows.now r))
        (cell (now_at rows.now r)) (cell (now_at rows.now r) q) }
    ensures ok { OnOk result (IsDivided (cell (now_at rows.now r) q) (now_at rows.now r) step.new) }
{
    let row = &rows[r];
    let by = row.now[q];
    divide(&row.now, &by, step)
}

// Puts a pivot that was worked out in place.
pub(crate) fn settle_pivot(
    rows: &mut [Row],
    costs: &mut CostRows,
    step: &mut Vec<Ratio>,
    places: &[usize],
    r: usize,
    q: usize,
)
    requires row { r < length rows.old }
    requires wide { AreWide (length step.old.items) rows.old }
    requires column { q < length costs.old.second.now.items }
    requires first_long { length costs.old.first.now.items ≡ length costs.old.second.now.items }
    requires step_long { length step.old.items ≡ length costs.old.second.now.items + 1 }
    requires step_fits { AllFit step.old.items }
    requires covers { CoversNonzeros places.now step.old.items }
    requires ready { IsReady rows.old r q costs.old step.old.items }
    ensures settled { IsSettled (length costs.old.second.now.items) r q costs.old.in_first
        (numbers_in rows.old costs.old.first.now.items costs.old.second.now.items)
        (numbers_in rows.new costs.new.first.now.items costs.new.second.now.items) }
    ensures wide { AreWide (length step.old.items) rows.new }
    ensures use_stays { costs.new.in_first ≡ costs.old.in_first }
    ensures first_long { length costs.new.first.now.items ≡ length costs.old.first.now.items }
    ensures second_long { length costs.new.second.now.items ≡ length costs.old.second.now.items }
    ensures step_long { length step.new.items ≡ length step.old.items }
    ensures step_fits { AllFit step.new.items }
{
    settle_rows(rows, r, q, places);
    let row = &mut rows[r];
    row.exchange(step);
    costs.settle(q, places);
}
