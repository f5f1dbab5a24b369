//! The dual of a model solved, and what its answer says of the model.
ghost use Rattle.std.specs.Prelude.{◌≡◌, [], All, IfOk, IsTrue, length};
ghost use Rattle.std.specs.Prelude as prelude;
ghost use Rattle.std.specs.FinMap as finite;
ghost use Rattle.bridge_set.specs.Bridges.{families_of, occur_once};
ghost use Rattle.cache_layer.specs.Cached.{model_in, state_of};
ghost use Rattle.certificates.specs.Good.{Good};
ghost use Rattle.dual_command.specs.Says.{SaysCarried, SaysDual, SaysDualCertificate};
ghost use Rattle.dual_command.specs.declared.command.Task.TheVariants.{Solve};
ghost use Rattle.group_numbering.specs.NewGroups.{variable_count};
ghost use Rattle.dual_model.specs.Carried.{carried_rows, carried_variables};
ghost use Rattle.dual_model.specs.DualOf.{dual_of_model, new_groups};
ghost use Rattle.dual_model.specs.Solved.{AreBestDuals};
ghost use Rattle.dualization.specs.Answers.{CarriesPoint};
ghost use Rattle.dualization.specs.declared.carrying.Carried.{Carried};
ghost use Rattle.dualization.specs.declared.fault.DualFault.{DualFault};
ghost use Rattle.model_command.specs.Alone.{standard_by};
ghost use Rattle.model_command.specs.Solved.{SaysSolved};
ghost use Rattle.user_model.specs.Valid.{IsValid};

use crate::printing::{best_duals, printed};
use bridge_face::Bridge;
use cache_layer::{Cache, Certificate};
use dualization::{DualFault, carry};
use lists::Memory;
use model_command::{Solution, cache_of, solve};
use model_store::UserModel;
use ratio_core::{Ratio, Ratios};
use report_core::{Answer, Refused, refusal};
use std::alloc::Global;

/// What is answered to the dual of a model, as it is solved.
pub(crate) fn solved<B: Bridge>(
    alloc: Global,
    model: &UserModel,
    dual: UserModel,
    bridges: Vec<B>,
) -> Result<Answer, Memory>
    requires dual { dual.model ≡ dual_of_model model.now.model }
    requires settled { dual.parked ≡ [] }
    requires once { IsTrue (occur_once (families_of (prelude.map B.state bridges.items))) }
    requires kept { All (λ s. s.kept ≡ finite.empty) (prelude.map B.state bridges.items) }
    ensures { IfOk result (SaysDual model.now.model
        (standard_by (prelude.map B.state bridges.items)) Solve) }
{
    let mut cache = cache_of(alloc, dual, bridges);
    let answer = answered(alloc, model, &mut cache);
    drop(cache);
    answer
}

// What is answered by a cache of the dual, which is lent so that it is freed once.
fn answered<B: Bridge>(
    alloc: Global,
    model: &UserModel,
    cache: &mut Cache<B>,
) -> Result<Answer, Memory>
    requires { model_in cache.old ≡ dual_of_model model.now.model }
    ensures { IfOk result (SaysSolved (SaysDualCertificate model.now.model) (state_of cache.old)) }
{
    // what this ensures: the dual is valid
    let _valid = cache.model().rows();
    match solve(alloc, cache)? {
        Solution::Certified(certificate) => {
            let answer = told(alloc, model, &certificate);
            drop(certificate);
            answer
        }
        Solution::Refused(refused) => Ok(refused),
    }
}

// What a certificate of the dual says of the model.
fn told(alloc: Global, model: &UserModel, certificate: &Certificate) -> Result<Answer, Memory>
    requires valid { IsValid (dual_of_model model.now.model) }
    requires good { Good (dual_of_model model.now.model) certificate.now }
    ensures { IfOk result (SaysDualCertificate model.now.model certificate.now) }
{
    // what this ensures: the model is valid
    let _valid = model.rows();
    match certificate {
        Certificate::Optimal { value, x, .. } => carried(alloc, model, value, x),
        Certificate::Infeasible { .. } => printed(alloc, "dual none\n"),
        Certificate::Unbounded { .. } => printed(alloc, "dual unbounded\n"),
    }
}

// What an optimal point of the dual is carried to.
fn carried(alloc: Global, model: &UserModel, value: &Ratio, x: &Ratios) -> Result<Answer, Memory>
    requires size { length x.now ≡ variable_count (new_groups model.now.model) }
    requires best { let model = model.now.model in
        AreBestDuals model value.now (carried_rows model.rows x.now)
        (carried_variables model (carried_rows model.rows x.now)) }
    ensures { IfOk result (λ answer. (carried : prelude.Result Carried DualFault)
        × CarriesPoint model.now.model x.now carried
        × SaysCarried model.now.model value.now carried answer) }
{
    match carry(alloc, model, x) {
        Ok(carried) => best_duals(alloc, model, value, &carried),
        Err(DualFault::Overflow { place }) => refusal(alloc, &Refused::Overflow { place }),
        Err(DualFault::Memory) => Err(Memory),
    }
}
