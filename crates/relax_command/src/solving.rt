//! The relaxation of a model solved, and what its answer says of the model.
ghost use Rattle.std.specs.Prelude.{◌≡◌, [], All, IfOk, IsTrue};
ghost use Rattle.std.specs.Prelude as prelude;
ghost use Rattle.std.specs.FinMap as finite;
ghost use Rattle.bridge_set.specs.Bridges.{families_of, occur_once};
ghost use Rattle.cache_layer.specs.Cached.{model_in, state_of};
ghost use Rattle.certificates.specs.Good.{Good};
ghost use Rattle.model_command.specs.Alone.{alone, standard_by};
ghost use Rattle.model_command.specs.Solved.{SaysSolved};
ghost use Rattle.relax_command.specs.Says.{SaysRelaxedCertificate};
ghost use Rattle.relaxation.specs.Answers.{IsRelaxedFrom};
ghost use Rattle.user_model.specs.Model.{ModelValue};

use crate::printing::relaxation_text;
use bridge_face::Bridge;
use cache_layer::{Cache, Certificate};
use lists::Memory;
use model_command::{Solution, cache_of, solve};
use model_store::UserModel;
use relaxation::relaxation_of;
use report_core::Answer;
use std::alloc::Global;

/// What is answered to the relaxation of a model, as it is solved.
pub(crate) fn solved<B: Bridge>(
    alloc: Global,
    relaxed: UserModel,
    bridges: Vec<B>,
) -> Result<Answer, Memory>
    requires from { (model : ModelValue) × IsRelaxedFrom model relaxed.model }
    requires settled { relaxed.parked ≡ [] }
    requires once { IsTrue (occur_once (families_of (prelude.map B.state bridges.items))) }
    requires kept { All (λ s. s.kept ≡ finite.empty) (prelude.map B.state bridges.items) }
    ensures { (model : ModelValue) → IsRelaxedFrom model relaxed.model
        → IfOk result (SaysSolved (SaysRelaxedCertificate model)
        (alone (standard_by (prelude.map B.state bridges.items)) relaxed.model)) }
{
    let mut cache = cache_of(alloc, relaxed, bridges);
    let answer = answered(alloc, &mut cache);
    drop(cache);
    answer
}

// What is answered by a cache of the relaxation, which is lent so that it is freed once.
fn answered<B: Bridge>(alloc: Global, cache: &mut Cache<B>) -> Result<Answer, Memory>
    requires { (model : ModelValue) × IsRelaxedFrom model (model_in cache.old) }
    ensures { (model : ModelValue) → IsRelaxedFrom model (model_in cache.old)
        → IfOk result (SaysSolved (SaysRelaxedCertificate model) (state_of cache.old)) }
{
    match solve(alloc, cache)? {
        Solution::Certified(certificate) => told(alloc, cache.model(), certificate),
        Solution::Refused(refused) => Ok(refused),
    }
}

// What a certificate of the relaxation says of the model.
fn told(alloc: Global, relaxed: &UserModel, certificate: Certificate) -> Result<Answer, Memory>
    requires from { (model : ModelValue) × IsRelaxedFrom model relaxed.now.model }
    requires good { Good relaxed.now.model certificate }
    ensures { (model : ModelValue) → IsRelaxedFrom model relaxed.now.model
        → IfOk result (SaysRelaxedCertificate model certificate) }
{
    let relaxation = relaxation_of(alloc, relaxed, certificate)?;
    let written = relaxation_text(alloc, relaxed, &relaxation);
    drop(relaxation);
    let text = written?;
    Ok(Answer::Printed(text))
}
