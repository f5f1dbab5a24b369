//! A model solved: a solver is attached, and optimises once.
ghost use Rattle.std.specs.Prelude.{◌≡◌, IfOk};
ghost use Rattle.cache_layer.specs.Cached.{model_in, state_of};
ghost use Rattle.model_command.specs.Solved.{IsGoodSolution, Solves, SolvesAttached};

use crate::telling::{tell_attach, tell_optimize};
use bridge_face::Bridge;
use cache_layer::{Cache, Certificate};
use lists::Memory;
use report_core::Answer;
use std::alloc::Global;

/// The most pivots of an optimise.
pub const PIVOTS: u64 = 100_000;

/// What solving a model gives.
#[derive(Debug, Drop)]
pub enum Solution {
    /// A certificate that is good for the model.
    Certified(Certificate),
    /// Why there is none, as it is answered.
    Refused(Answer),
}

/// Attaches a solver to the model and optimises once, with at most `PIVOTS` pivots. The model stays
/// as it is, also where memory runs out.
pub fn solve<B: Bridge>(alloc: Global, cache: &mut Cache<B>) -> Result<Solution, Memory>
    ensures solves { IfOk result (Solves (state_of cache.old) (state_of cache.new)) }
    ensures good { IfOk result (IsGoodSolution (model_in cache.old)) }
    ensures model { model_in cache.new ≡ model_in cache.old }
{
    match cache.attach() {
        Ok(_leaves) => optimize(alloc, cache),
        Err(fault) => Ok(Solution::Refused(tell_attach(alloc, fault)?)),
    }
}

// The same where a solver is attached.
fn optimize<B: Bridge>(alloc: Global, cache: &Cache<B>) -> Result<Solution, Memory>
    ensures solves { IfOk result (SolvesAttached (state_of cache.now)) }
    ensures good { IfOk result (IsGoodSolution (model_in cache.now)) }
{
    match cache.optimize(PIVOTS) {
        Ok(certificate) => Ok(Solution::Certified(certificate)),
        Err(fault) => Ok(Solution::Refused(tell_optimize(alloc, fault)?)),
    }
}
