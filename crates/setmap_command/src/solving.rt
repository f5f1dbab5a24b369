//! The mapped model solved.
ghost use Rattle.std.specs.Prelude.{◌≡◌, [], All, IfOk, IsTrue};
ghost use Rattle.std.specs.Prelude as prelude;
ghost use Rattle.std.specs.FinMap as finite;
ghost use Rattle.bridge_set.specs.Bridges.{families_of, occur_once};
ghost use Rattle.cache_layer.specs.Cached.{model_in, state_of};
ghost use Rattle.cert_text.specs.Text.{certificate_text};
ghost use Rattle.certificates.specs.Good.{Good};
ghost use Rattle.certificates.specs.Points.{variables_of};
ghost use Rattle.mapped_model.specs.Stands.{StandsFor};
ghost use Rattle.mapped_model.specs.Uses.{uses_in};
ghost use Rattle.model_command.specs.Alone.{alone, standard_by};
ghost use Rattle.model_command.specs.Solved.{SaysSolved};
ghost use Rattle.setmap_command.specs.Says.{SaysMappedCertificate, StandsForMapped};
ghost use Rattle.user_model.specs.Model.{ModelValue};
ghost use Rattle.user_model.specs.Valid.{IsValid};

use crate::telling::tell_mapping;
use bridge_face::Bridge;
use cache_layer::{Cache, Certificate};
use cert_text::print;
use lists::Memory;
use mapped_model::MappedRows;
use model_command::{Solution, cache_of, solve};
use model_store::UserModel;
use report_core::Answer;
use std::alloc::Global;

/// What is answered to the model with its mapped rows, as it is solved.
pub(crate) fn solved<B: Bridge>(
    alloc: Global,
    model: UserModel,
    rows: &MappedRows,
    bridges: Vec<B>,
) -> Result<Answer, Memory>
    requires stands { StandsForMapped rows.now model.model }
    requires settled { model.parked ≡ [] }
    requires once { IsTrue (occur_once (families_of (prelude.map B.state bridges.items))) }
    requires kept { All (λ s. s.kept ≡ finite.empty) (prelude.map B.state bridges.items) }
    ensures { (old : ModelValue) → StandsFor old (uses_in old rows.now) model.model
        → IfOk result (SaysSolved (SaysMappedCertificate old rows.now model.model)
        (alone (standard_by (prelude.map B.state bridges.items)) model.model)) }
{
    let mut cache = cache_of(alloc, model, bridges);
    let answer = answered(alloc, rows, &mut cache);
    drop(cache);
    answer
}

// What is answered by a cache of the model, which is lent so that it is freed once.
fn answered<B: Bridge>(
    alloc: Global,
    rows: &MappedRows,
    cache: &mut Cache<B>,
) -> Result<Answer, Memory>
    requires { StandsForMapped rows.now (model_in cache.old) }
    ensures { (old : ModelValue) → StandsFor old (uses_in old rows.now) (model_in cache.old)
        → IfOk result (SaysSolved (SaysMappedCertificate old rows.now (model_in cache.old))
        (state_of cache.old)) }
{
    match solve(alloc, cache)? {
        Solution::Certified(certificate) => told(alloc, rows, cache.model(), certificate),
        Solution::Refused(refused) => Ok(refused),
    }
}

// What is answered to a certificate of the model with the mapped rows.
fn told(
    alloc: Global,
    rows: &MappedRows,
    model: &UserModel,
    certificate: Certificate,
) -> Result<Answer, Memory>
    requires stands { StandsForMapped rows.now model.now.model }
    requires good { Good model.now.model certificate }
    ensures { (old : ModelValue) → StandsFor old (uses_in old rows.now) model.now.model
        → IfOk result (SaysMappedCertificate old rows.now model.now.model certificate) }
{
    match rows.take_back(certificate) {
        Ok(certificate) => {
            let text = printed(alloc, model, &certificate);
            drop(certificate);
            text
        }
        Err(fault) => tell_mapping(alloc, fault),
    }
}

fn printed(alloc: Global, model: &UserModel, certificate: &Certificate) -> Result<Answer, Memory>
    ensures valid { IsValid model.now.model }
    ensures text { IfOk result (λ answer. answer ≡ Answer.Printed
        (certificate_text (variables_of model.now.model.groups) model.now.model.rows
        certificate.now)) }
{
    let text = print(alloc, model.groups(), model.rows(), certificate)?;
    Ok(Answer::Printed(text))
}
