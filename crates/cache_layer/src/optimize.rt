//! Optimising: the solver's model is solved, and the answer is carried back to the user's.
ghost use Rattle.std.specs.Prelude.{IfOk};
ghost use Rattle.certificates.specs.Good.{Good};
ghost use Rattle.equality_form.specs.Right.{IsRight};
ghost use Rattle.lazy_bridge.specs.Owned.{IsBridgingOf, leaf_model_in};
ghost use Rattle.std_form.specs.Answers.{answer_of};
ghost use Rattle.cache_layer.specs.Bridging.{state_by};
ghost use Rattle.cache_layer.specs.Optimizing.{CanTell, TellsCertificate, TellsFault};
ghost use Rattle.cache_layer.specs.Outcome.{IsOptimized};

use crate::OptFault;
use crate::solving::leaf_answer;
use adjoint_core::{BackFault, carry_back};
use bridge_face::Bridge;
use bridged_report::place_at;
use cert_core::Certificate;
use lazy_bridge::Lazy;
use model_store::UserModel;
use solver_store::LeafAnswer;
use std::alloc::Global;

/// The certificate of the model whose fresh bridging stands, by at most this number of pivots.
pub(crate) fn optimize<B: Bridge>(
    alloc: Global,
    lazy: &Lazy<B>,
    model: &UserModel,
    pivots: u64,
) -> Result<Certificate, OptFault>
    requires { IsBridgingOf lazy.now model.now.model }
    ensures outcome { IsOptimized (state_by lazy.now lazy.now.bridges.table model.now.model) pivots
        result }
    ensures good { IfOk result (Good model.now.model) }
{
    // what this ensures: native kinds alone are supported
    let _native = lazy.table();
    let answer = leaf_answer(alloc, lazy.solver(), lazy.map(), pivots)?;
    certificate(alloc, lazy, model, &answer)
}

// An answer for the leaves, carried back.
fn certificate<B: Bridge>(
    alloc: Global,
    lazy: &Lazy<B>,
    model: &UserModel,
    answer: &LeafAnswer,
) -> Result<Certificate, OptFault>
    requires stands { IsBridgingOf lazy.now model.now.model }
    requires right { IsRight (leaf_model_in lazy.now) (answer_of lazy.now.map answer.now) }
    ensures told { (stands : IsBridgingOf lazy.now model.now.model)
        → TellsCertificate stands.bridging (answer_of lazy.now.map answer.now) result }
    ensures good { IfOk result (Good model.now.model) }
{
    // what this ensures: the choices are sound
    let _sound = lazy.table();
    match carry_back(alloc, lazy.bridges(), lazy.map(), model, answer) {
        Ok(certificate) => Ok(certificate),
        Err(fault) => Err(in_names(model, fault)),
    }
}

// The fault in the user's names.
fn in_names(model: &UserModel, fault: BackFault) -> OptFault
    requires { CanTell model.now.model fault }
    ensures { TellsFault model.now.model fault result }
{
    match fault {
        BackFault::Memory => OptFault::Memory,
        BackFault::Overflow { at } => match place_at(model, &at) {
            Ok(Some(place)) => OptFault::Overflow { place },
            Ok(None) => unreachable!(),
            Err(_) => OptFault::Memory,
        },
    }
}
