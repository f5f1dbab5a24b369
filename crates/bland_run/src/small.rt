//! Bland's rule, to the end of its trail.
ghost use Rattle.std.specs.Prelude.{◌≡◌, ◌+◌, ◌≤◌, ◌^◌, IfOk, IsSome, Some};
ghost use Rattle.bland_rule_laws.specs.Cycles.{IsTrailBounded, IsUnlimited, NeverRepeats, most_steps};
ghost use Rattle.simplex_core.specs.Answer.{IsRightAnswer};
ghost use Rattle.simplex_core.specs.StdForm.{IsWellShaped, equality_form};
ghost use Rattle.simplex_form.specs.TrailOutcome.{outcome};
ghost use Rattle.bland_run.specs.Small.{EndsTrail, TellsSmall, small_fault_of};

use crate::fault::SmallFault;
use simplex_core::{SolveFault, SolverAnswer, StdForm, solve};
use std::alloc::Global;

/// Solves a form of at most 61 rows and columns by Bland's rule, which needs no allowance of
/// pivots, since it comes to no set of basic columns again.
///
/// Answers `Overflow` where a sum of the first board, or a quotient, product or difference of the
/// next pivot, passes 128 bits, with the basis there.
pub fn solve_small(alloc: Global, form: &StdForm) -> Result<SolverAnswer, SmallFault>
    requires shape { IsWellShaped form.now }
    requires small { form.now.c + form.now.m ≤ 61 }

    // The answer is read off the end of the trail, and is right. Where a number of the first board
    // or of the next pivot exceeds 128 bits, the basis there is reported. That is the outcome of the trail
    // with an allowance of as many pivots as none has.
    ensures end { EndsTrail (equality_form form.now) result }
    ensures outcome { let F = equality_form form.now in
        TellsSmall F (outcome F (most_steps F)) result }
    ensures right { IfOk result (IsRightAnswer (equality_form form.now)) }

    // Within a phase no set of basic columns comes twice. So a trail has fewer pivots than there
    // are sets in both phases and rows to sweep, and with such an allowance none is cut off.
    ensures never_repeats { NeverRepeats (equality_form form.now) }
    ensures bounded { IsTrailBounded (equality_form form.now) }
    ensures unlimited { IsUnlimited (equality_form form.now) }
{
    solve_to_end(alloc, form)
}

// Solves a form with an allowance that never runs out.
fn solve_to_end(alloc: Global, form: &StdForm) -> Result<SolverAnswer, SmallFault>
    requires shape { IsWellShaped form.now }
    requires small { form.now.c + form.now.m ≤ 61 }
    ensures outcome { let F = equality_form form.now in
        TellsSmall F (outcome F (most_steps F)) result }
    ensures right { IfOk result (IsRightAnswer (equality_form form.now)) }
{
    match solve(alloc, form, most_pivots(form.m, form.c)) {
        Ok(answer) => Ok(answer),
        Err(fault) => Err(small_fault(fault)),
    }
}

fn small_fault(fault: SolveFault) -> SmallFault
    requires { IsSome (small_fault_of fault) }
    ensures { small_fault_of fault ≡ Some result }
{
    match fault {
        SolveFault::Overflow { basis } => SmallFault::Overflow { basis },
        SolveFault::Memory => SmallFault::Memory,
        SolveFault::Limit { .. } => unreachable!(),
    }
}

// More pivots than the trail of a form of m rows and c columns has.
fn most_pivots(m: usize, c: usize) -> u64
    requires { c + m ≤ 61 }
    ensures { result ≡ 2 ^ (c + m + 1) + m }
{
    2u64.pow((c + m + 1) as u32) + m as u64
}
