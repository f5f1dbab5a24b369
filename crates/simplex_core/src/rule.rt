//! Bland's rule, read on the board.
ghost use Rattle.std.specs.Prelude.{◌≡◌, ◌<◌, IsTrue, IfSome, length};
ghost use Rattle.ratio_core.specs.Rational.{zero_ℚ};
ghost use Rattle.simplex_form.specs.Fit.{uses_first};
ghost use Rattle.simplex_form.specs.Turns as bland;
ghost use Rattle.tableau_core.specs.BoardContents.{readings_of};
ghost use Rattle.simplex_core.specs.Phases.{IsInPhase, IsTurnWithin};

use ratio_core::Ratio;
use simplex_form::{Phase, Turn};
use tableau_core::{CostRow, Tableau, is_positive};

// What is done at the board's basis.
pub(crate) fn turn<T: Tableau>(board: &T, phase: Phase) -> Turn
    requires phase { IsInPhase phase (T.contents board.now) }
    ensures turn { result ≡ bland.turn_in phase (readings_of (T.contents board.now)) }
    ensures within { IsTurnWithin (T.contents board.now) result }
{
    match phase {
        Phase::First => first_turn(board),
        Phase::Sweep => sweep_turn(board),
        Phase::Second => second_turn(board),
    }
}

fn first_turn<T: Tableau>(board: &T) -> Turn
    requires first { IsTrue (T.contents board.now).in_first }
    ensures turn { let R = readings_of (T.contents board.now) in
        result ≡ bland.first_turn R (bland.entering R R.first_price) }
    ensures within { IsTurnWithin (T.contents board.now) result }
{
    if let Some(column) = board.entering(CostRow::First) {
        return enters(board, Phase::First, column);
    }
    if !is_left_above(board) {
        return sweep_turn(board);
    }
    if multipliers_fit(board) {
        Turn::Infeasible
    } else {
        Turn::Stuck
    }
}

fn sweep_turn<T: Tableau>(board: &T) -> Turn
    ensures turn { let R = readings_of (T.contents board.now) in
        result ≡ bland.sweep_turn R (bland.swept_entry R) }
    ensures within { IsTurnWithin (T.contents board.now) result }
{
    match swept(board) {
        Some(found) => Turn::Pivot {
            phase: Phase::Sweep,
            row: found.0,
            column: found.1,
        },
        None => second_turn(board),
    }
}

fn second_turn<T: Tableau>(board: &T) -> Turn
    ensures turn { let R = readings_of (T.contents board.now) in
        result ≡ bland.second_turn R (bland.entering R R.second_price) }
    ensures within { IsTurnWithin (T.contents board.now) result }
{
    match board.entering(CostRow::Second) {
        Some(column) => enters(board, Phase::Second, column),
        None => Turn::Optimal,
    }
}

// The column enters where a row leaves.
fn enters<T: Tableau>(board: &T, phase: Phase, column: usize) -> Turn
    requires first { IsTrue (uses_first phase) → IsTrue (T.contents board.now).in_first }
    requires column { column < (T.contents board.now).reals }
    ensures turn { result
        ≡ bland.enters phase column (bland.leaving (readings_of (T.contents board.now)) column) }
    ensures within { IsTurnWithin (T.contents board.now) result }
{
    match board.leaving(column) {
        Some(row) => Turn::Pivot { phase, row, column },
        None => Turn::Unbounded { column },
    }
}

// The least row with a basic artificial column and a real entry that isn't 0, with the least such
// column.
fn swept<T: Tableau>(board: &T) -> Option<(usize, usize)>
    ensures value { result ≡ bland.swept_entry (readings_of (T.contents board.now)) }
    ensures entry { let t = T.contents board.now in IfSome result (λ found.
        (found.0 < length t.rows) × (found.1 < t.reals)
        × ¬ ((readings_of t).entry found.1 found.0 ≡ zero_ℚ)) }
{
    for i in 0..board.row_count() {
        if board.basis()[i] >= board.real_count() {
            if let Some(j) = board.swept_column(i) {
                return Some((i, j));
            }
        }
    }
    None
}

// Whether an artificial column is above 0.
fn is_left_above<T: Tableau>(board: &T) -> bool
    ensures { result ≡ bland.is_left_above (readings_of (T.contents board.now)) }
{
    for i in 0..board.row_count() {
        if is_above(board, i) {
            return true;
        }
    }
    false
}

// Whether row i has an artificial column that is above 0.
fn is_above<T: Tableau>(board: &T, i: usize) -> bool
    requires { i < length (T.contents board.now).rows }
    ensures { result ≡ bland.is_above (readings_of (T.contents board.now)) i }
{
    board.basis()[i] >= board.real_count() && is_positive(&board.right(i))
}

// Whether the multipliers fit that are to show that the rows can't be met.
fn multipliers_fit<T: Tableau>(board: &T) -> bool
    requires first { IsTrue (T.contents board.now).in_first }
    ensures { result ≡ bland.multipliers_fit (readings_of (T.contents board.now)) }
{
    for j in board.real_count()..board.column_count() {
        if Ratio::one().sub(&board.price(CostRow::First, j)).is_err() {
            return false;
        }
    }
    true
}
