//! The rows other than the pivot's.
ghost use Rattle.std.specs.Prelude.{◌≡◌, ℕ, ◌<◌, List, length, is_ok, OnOk};
ghost use Rattle.ratio_core.specs.Rational.{Rational};
ghost use Rattle.tableau_core.specs.Places.{CoversNonzeros};
ghost use Rattle.tableau_core.specs.Rows.{AreLowered, ArePrepared, AreWide, now_at, rows_fit};

use crate::fault::BoardOverflow;
use crate::kept::Row;
use ratio_core::Ratio;

// Works out each row other than r, where `step` is the new row r.
pub(crate) fn prepare_rows(
    rows: &mut [Row],
    r: usize,
    q: usize,
    step: &[Ratio],
    places: &[usize],
) -> Result<(), BoardOverflow>
    requires within { q < length step.now }
    requires covers { CoversNonzeros places.now step.now }
    requires wide { AreWide (length step.now) rows.old }
    ensures stays { (i : ℕ) → now_at rows.new i ≡ now_at rows.old i }
    ensures fits { is_ok result ≡ rows_fit r q step.now rows.old }
    ensures ok { OnOk result (ArePrepared r q step.now rows.new) }
{
    for i in 0..rows.len() {
        if i != r {
            let row = &mut rows[i];
            row.prepare(q, step, places)?;
        }
    }
    Ok(())
}

// Puts each row other than r in place.
pub(crate) fn settle_rows(rows: &mut [Row], r: usize, q: usize, places: &[usize])
    requires within { (i : ℕ) → i < length rows.old → q < length (now_at rows.old i) }
    ensures lowered { (step : List Rational) → AreWide (length step) rows.old
        → CoversNonzeros places.now step
        → ArePrepared r q step rows.old → AreLowered r q step rows.old rows.new }
    ensures stays { now_at rows.new r ≡ now_at rows.old r }
{
    for i in 0..rows.len() {
        if i != r {
            let row = &mut rows[i];
            row.settle(q, places);
        }
    }
}
