//! The simplex.
ghost use Rattle.std.specs.Prelude.{◌≡◌, ◌+◌, ◌<◌, ◌^◌, IfOk};
ghost use Rattle.std.specs.List.{range_with_len};
ghost use Rattle.simplex_form.specs.TrailOutcome.{IsOutcome, outcome};
ghost use Rattle.simplex_core.specs.Answer.{IsRightAnswer, SaysOutcome};
ghost use Rattle.simplex_core.specs.StdForm.{IsWellShaped, equality_form};

use crate::answer::{Basis, SolverAnswer};
use crate::fault::SolveFault;
use crate::form::StdForm;
use crate::run::run;
use lists::{Memory, Sequence};
use ratio_core::NumberFault;
use sparse_board::Board;
use std::alloc::Global;
use tableau_core::{DenseBoard, Tableau};

/// Solves a form by Bland's rule in two phases, with an allowance of `pivots` pivots.
///
/// Answers `Limit` where the allowance is used up before the end, and `Overflow` where a sum of the
/// first board, or a quotient, product or difference of the next pivot, passes 128 bits; each with
/// the basis there.
pub fn solve(alloc: Global, form: &StdForm, pivots: u64) -> Result<SolverAnswer, SolveFault>
    requires { IsWellShaped form.now }
    ensures outcome { SaysOutcome (equality_form form.now) pivots result }
    ensures meaning { let F = equality_form form.now in IsOutcome F pivots (outcome F pivots) }
    ensures right { IfOk result (IsRightAnswer (equality_form form.now)) }
{
    solve_on::<Board>(alloc, form, pivots)
}

/// Solves a form as `solve` does, on a board that keeps each number, those that are 0 too. The
/// answer is the same.
pub fn solve_dense(alloc: Global, form: &StdForm, pivots: u64) -> Result<SolverAnswer, SolveFault>
    requires { IsWellShaped form.now }
    ensures outcome { SaysOutcome (equality_form form.now) pivots result }
    ensures meaning { let F = equality_form form.now in IsOutcome F pivots (outcome F pivots) }
    ensures right { IfOk result (IsRightAnswer (equality_form form.now)) }
{
    solve_on::<DenseBoard>(alloc, form, pivots)
}

fn solve_on<T: Tableau + Drop>(
    alloc: Global,
    form: &StdForm,
    pivots: u64,
) -> Result<SolverAnswer, SolveFault>
    requires { IsWellShaped form.now }
    ensures outcome { SaysOutcome (equality_form form.now) pivots result }
    ensures meaning { let F = equality_form form.now in IsOutcome F pivots (outcome F pivots) }
    ensures right { IfOk result (IsRightAnswer (equality_form form.now)) }
{
    let right = form.right.as_slice();
    let costs = form.costs.as_slice();
    match T::start(alloc, form.m, form.c, &form.matrix, right, costs) {
        Ok(board) => run(alloc, board, pivots),
        Err(NumberFault::Overflow) => {
            let basis = first_basis(alloc, form.m, form.c)?;
            Err(SolveFault::Overflow { basis })
        }
        Err(NumberFault::Memory) => Err(SolveFault::Memory),
    }
}

// The artificial columns.
fn first_basis(alloc: Global, m: usize, c: usize) -> Result<Basis, Memory>
    requires { c + m < 2 ^ 64 }
    ensures { IfOk result (λ basis. basis ≡ range_with_len c m) }
{
    let mut basis = Vec::with_capacity(alloc, m)?;
    for i in 0..m {
        basis.push(c + i)?;
    }
    Ok(Sequence::from_vec(basis))
}
