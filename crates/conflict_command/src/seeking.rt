//! The conflict of a model, found and reported.
ghost use Rattle.std.specs.Prelude.{◌≡◌, ◌≤◌, ◌+◌, IfOk, OnOk, false, length};
ghost use Rattle.cache_layer.specs.Cached.{model_in, state_of};
ghost use Rattle.conflict_command.specs.Says.{SaysOfConflict, SaysSought, bare};
ghost use Rattle.model_conflict.specs.Steps.{CanWalk};
ghost use Rattle.user_model.specs.Limits.{LAST_NUMBER};

use crate::printing::tell_found;
use bridge_face::Bridge;
use cache_layer::{Cache, EditFault};
use lists::Memory;
use model_command::{PIVOTS, tell_attach, tell_optimize};
use model_conflict::find_in;
use report_core::Answer;
use std::alloc::Global;
use user_model::Edit;

/// What is answered to a model with no solver attached, whose objective is dropped and to which one
/// is attached then. The cache is lent, so that it is freed once.
pub(crate) fn sought<B: Bridge>(alloc: Global, cache: &mut Cache<B>) -> Result<Answer, Memory>
    requires detached { cache.old.attached ≡ false }
    requires room { (model_in cache.old).next.row + length (model_in cache.old).rows
        ≤ LAST_NUMBER + 1 }
    ensures { IfOk result (SaysOfConflict (state_of cache.old).setting (model_in cache.old)) }
{
    drop_objective(cache)?;
    match cache.attach() {
        Ok(_leaves) => told(alloc, cache),
        Err(fault) => tell_attach(alloc, fault),
    }
}

// Drops the objective, which is never refused.
fn drop_objective<B: Bridge>(cache: &mut Cache<B>) -> Result<(), Memory>
    requires { cache.old.attached ≡ false }
    ensures { OnOk result (state_of cache.new
        ≡ bare (state_of cache.old).setting (model_in cache.old)) }
{
    match cache.edit(Edit::Feasibility) {
        Ok(_changed) => Ok(()),
        Err(fault) => match fault {
            EditFault::Memory => Err(Memory),
            _ => unreachable!(),
        },
    }
}

// What is found of a model to which a solver is attached. Of a conflict its rows alone are left.
fn told<B: Bridge>(alloc: Global, cache: &mut Cache<B>) -> Result<Answer, Memory>
    requires { CanWalk (state_of cache.old) (length (model_in cache.old).rows) }
    ensures { IfOk result (SaysSought (state_of cache.old)) }
{
    match find_in(cache, PIVOTS) {
        Ok(found) => {
            let answer = tell_found(alloc, cache.model(), &found);
            drop(found);
            answer
        }
        Err(fault) => tell_optimize(alloc, fault),
    }
}
