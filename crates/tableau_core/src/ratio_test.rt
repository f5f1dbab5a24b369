//! The row that leaves, by fractions.
ghost use Rattle.std.specs.Prelude.{◌≡◌, ◌+◌, ◌<◌, IsTrue, IfSome, Some, if◌then◌else◌, length};
ghost use Rattle.ratio_core.specs.Rational.{zero_ℚ, ◌‹ℚ◌};
ghost use Rattle.simplex_form.specs.Search.{best_below, better_of};
ghost use Rattle.simplex_form.specs.Turns.{is_below};
ghost use Rattle.tableau_core.specs.Leaving.{IsCandidate, comes_before, leaves_before, may_leave, ratio_of};
ghost use Rattle.tableau_core.specs.Row.{cell};
ghost use Rattle.tableau_core.specs.Rows.{AreWide};

use crate::kept::Row;
use crate::sign::is_positive;
use ratio_core::Ratio;
use std::cmp::Ordering;

// The row of least ratio of its right side to its positive entry of column q, and of these that of
// least basic column. The right sides stand in column `side`.
pub(crate) fn leaving(rows: &[Row], basis: &[usize], side: usize, q: usize) -> Option<usize>
    requires wide { AreWide (side + 1) rows.now }
    requires column { q < side }
    requires basis { length basis.now ≡ length rows.now }
    ensures value { result ≡ best_below (length rows.now) (may_leave rows.now q)
        (leaves_before rows.now basis.now side q) }
    ensures candidate { IfSome result (λ r. IsCandidate rows.now q r) }
{
    let mut best = None;
    for i in 0..rows.len() {
        if leaves_first(rows, basis, side, q, i, best) {
            best = Some(i);
        }
    }
    best
}

// Whether row i leaves before the best so far.
fn leaves_first(
    rows: &[Row],
    basis: &[usize],
    side: usize,
    q: usize,
    i: usize,
    best: Option<usize>,
) -> bool
    requires wide { AreWide (side + 1) rows.now }
    requires column { q < side }
    requires basis { length basis.now ≡ length rows.now }
    requires row { i < length rows.now }
    requires best { IfSome best (λ k. IsCandidate rows.now q k) }
    ensures value { better_of (may_leave rows.now q) (leaves_before rows.now basis.now side q) best i
        ≡ (if result then Some i else best) }
    ensures candidate { IsTrue result → IsCandidate rows.now q i }
{
    let row = &rows[i];
    if !has_positive(row, q) {
        return false;
    }
    match best {
        Some(k) => leaves_sooner(row, &rows[k], side, q, basis[i] < basis[k]),
        None => true,
    }
}

// Whether the row's entry of column q is above 0.
#[tactic(auto, using(rational_laws::specs::Tests::rational_tests))]
fn has_positive(row: &Row, q: usize) -> bool
    requires { q < length row.now.now.items }
    ensures value { result ≡ is_below zero_ℚ (cell row.entry.now.now.items q) }
    ensures above { IsTrue result → zero_ℚ ‹ℚ cell row.entry.now.now.items q }
{
    is_positive(&row.now[q])
}

fn leaves_sooner(row: &Row, other: &Row, side: usize, q: usize, is_lower: bool) -> bool
    requires long { length row.now.now.items ≡ side + 1 }
    requires other_long { length other.now.now.items ≡ side + 1 }
    requires column { q < side }
    requires above { zero_ℚ ‹ℚ cell row.now.now.items q }
    requires other_above { zero_ℚ ‹ℚ cell other.now.now.items q }
    ensures { result ≡ comes_before (ratio_of side q row.entry.now.now.items)
        (ratio_of side q other.entry.now.now.items) is_lower }
{
    is_before(&row.now, &other.now, side, q, is_lower)
}

// Whether a row leaves before another, where of equal ratios it does if its basic column is lower.
fn is_before(row: &[Ratio], other: &[Ratio], side: usize, q: usize, is_lower: bool) -> bool
    requires long { length row.now ≡ side + 1 }
    requires other_long { length other.now ≡ side + 1 }
    requires column { q < side }
    requires above { zero_ℚ ‹ℚ cell row.now q }
    requires other_above { zero_ℚ ‹ℚ cell other.now q }
    ensures { result ≡ comes_before (ratio_of side q row.now) (ratio_of side q other.now) is_lower }
{
    match row[side].cmp_quotients(&row[q], &other[side], &other[q]) {
        Ordering::Less => true,
        Ordering::Equal => is_lower,
        Ordering::Greater => false,
    }
}
