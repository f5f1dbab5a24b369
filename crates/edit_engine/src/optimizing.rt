//! What an optimise prints.
ghost use Rattle.std.specs.Prelude.{◌≡◌, IfOk, Ok};
ghost use Rattle.cache_layer.specs.Cached.{state_of};
ghost use Rattle.edit_engine.specs.Script.{Makes, Optimizes, optimize_answer};

use crate::refusals::optimize_refusal;
use bridge_face::Bridge;
use cache_layer::{Cache, Certificate, OptFault};
use cert_text::print;
use file_answers::tell_refusal;
use lists::Memory;
use model_store::UserModel;
use report_core::Answer;
use std::alloc::Global;

/// Solves the solver's model with at most this number of pivots.
pub(crate) fn optimize<B: Bridge>(
    alloc: Global,
    cache: &Cache<B>,
    pivots: u64,
) -> Result<Answer, Memory>
    ensures { let state = state_of cache.now in
        Makes (Optimizes state pivots) state result state }
{
    let made = cache.optimize(pivots);
    tell(alloc, cache.model(), made)
}

// What an optimise was answered.
fn tell(
    alloc: Global,
    model: &UserModel,
    made: Result<Certificate, OptFault>,
) -> Result<Answer, Memory>
    ensures { IfOk result (λ answer. answer ≡ optimize_answer model.now.model made) }
{
    match made {
        Ok(certificate) => {
            let told = printed(alloc, model, &certificate);
            drop(certificate);
            told
        }
        Err(fault) => tell_refusal(alloc, optimize_refusal(fault)),
    }
}

fn printed(alloc: Global, model: &UserModel, certificate: &Certificate) -> Result<Answer, Memory>
    ensures { IfOk result (λ answer.
        answer ≡ optimize_answer model.now.model (Ok certificate.now)) }
{
    let text = print(alloc, model.groups(), model.rows(), certificate)?;
    Ok(Answer::Printed(text))
}
