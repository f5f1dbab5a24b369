//! The trail, one pivot a step.
ghost use Rattle.std.specs.Prelude.{◌≡◌, ◌≢◌, ◌<◌, IsErrOf, IsTrue, MatchResult, OnOk, false, length, true};
ghost use Rattle.ratio_core.specs.Rational.{zero_ℚ};
ghost use Rattle.simplex_form.specs.Basis.{start};
ghost use Rattle.simplex_form.specs.Fit.{pivot_fits, uses_first};
ghost use Rattle.simplex_form.specs.Form.{Form, IsStandard};
ghost use Rattle.simplex_form.specs.TrailOutcome.{outcome_from};
ghost use Rattle.tableau_core.specs.BoardContents.{IsBoardOf, IsPivoted, readings_of};
ghost use Rattle.simplex_core.specs.Answer.{TellsOutcome};
ghost use Rattle.simplex_core.specs.Phases.{in_phase};

use crate::answer::SolverAnswer;
use crate::fault::SolveFault;
use crate::read_off::{basis_of, infeasible, optimal, unbounded};
use crate::rule::turn;
use ratio_core::NumberFault;
use simplex_form::{Phase, Turn};
use std::alloc::Global;
use tableau_core::Tableau;

// Goes on from the first board, with an allowance of pivots.
pub(crate) fn run<T: Tableau + Drop>(
    alloc: Global,
    mut board: T,
    pivots: u64,
) -> Result<SolverAnswer, SolveFault>
    requires in_first { (T.contents board).in_first ≡ true }
    ensures { (F : Form) → IsStandard F → IsBoardOf F (start F) (T.contents board)
        → TellsOutcome F pivots (outcome_from F pivots (start F)) result }
{
    let mut phase = Phase::First;
    let mut left = pivots;
    'steps: loop {
        match turn(&board, phase) {
            Turn::Infeasible => return Ok(infeasible(alloc, &board)?),
            Turn::Unbounded { column } => return Ok(unbounded(alloc, &board, column)?),
            Turn::Optimal => return Ok(optimal(alloc, &board)?),
            Turn::Stuck => {
                let basis = basis_of(alloc, &board)?;
                if left == 0 {
                    return Err(SolveFault::Limit { basis, pivots });
                }
                return Err(SolveFault::Overflow { basis });
            }
            Turn::Pivot {
                phase: next,
                row,
                column,
            } => {
                if left == 0 {
                    let basis = basis_of(alloc, &board)?;
                    return Err(SolveFault::Limit { basis, pivots });
                }
                match step(&mut board, next, row, column) {
                    Ok(()) => (),
                    Err(NumberFault::Overflow) => {
                        let basis = basis_of(alloc, &board)?;
                        return Err(SolveFault::Overflow { basis });
                    }
                    Err(NumberFault::Memory) => return Err(SolveFault::Memory),
                }
                phase = next;
                left -= 1;
            }
        }
    }
}

// Makes a pivot to a basis of the phase.
fn step<T: Tableau>(
    board: &mut T,
    next: Phase,
    row: usize,
    column: usize,
) -> Result<(), NumberFault>
    requires first { IsTrue (uses_first next) → IsTrue (T.contents board.old).in_first }
    requires row { row < length (T.contents board.old).rows }
    requires column { column < (T.contents board.old).reals }
    requires nonzero { (readings_of (T.contents board.old)).entry column row ≢ zero_ℚ }
    ensures fits { let t = T.contents board.old in
        OnOk result (pivot_fits (uses_first next) (readings_of t) row column ≡ true) }
    ensures overflow { let t = T.contents board.old in IsErrOf result NumberFault.Overflow
        → pivot_fits (uses_first next) (readings_of t) row column ≡ false }
    ensures board { let t = in_phase next (T.contents board.old) in MatchResult result
        (λ _. IsPivoted row column t (T.contents board.new))
        (λ _. T.contents board.new ≡ t) }
{
    leave(board, next);
    board.pivot(row, column)
}

// The first cost row is left out from the sweep on.
fn leave<T: Tableau>(board: &mut T, next: Phase)
    requires { IsTrue (uses_first next) → IsTrue (T.contents board.old).in_first }
    ensures { T.contents board.new ≡ in_phase next (T.contents board.old) }
{
    match next {
        Phase::First => (),
        Phase::Sweep | Phase::Second => board.end_phase_one(),
    }
}
