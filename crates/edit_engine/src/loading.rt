//! What a line `load` does to a cache.
ghost use Rattle.std.specs.Prelude.{◌≡◌, ◌≢◌, ◌≤◌, IfOk, Ok, OnOk, false};
ghost use Rattle.cache_layer.specs.Answers.{IsLoaded};
ghost use Rattle.cache_layer.specs.Cached.{state_of};
ghost use Rattle.edit_engine.specs.Bare as bare;
ghost use Rattle.edit_engine.specs.Counts.{TakesFew};
ghost use Rattle.edit_engine.specs.Held.{KeepsRefused};
ghost use Rattle.edit_engine.specs.Script.{Loads, Makes, TellsCall, load_answer};
ghost use Rattle.edit_engine.specs.Lines.{load_asks};
ghost use Rattle.io_face.specs.Fault.{HasFaulted};
ghost use Rattle.io_face.specs.Shelf.{AsksFor};
ghost use Rattle.io_face.specs.Told.{told_by};

use crate::lines::refuse;
use crate::refusals::edit_refusal;
use bridge_face::Bridge;
use cache_layer::{Cache, EditFault};
use file_answers::{tell_fault, tell_refusal};
use io_face::Shelf;
use lists::Memory;
use model_store::UserModel;
use mof_fetch::fetch_edits;
use mof_read::Edits;
use name_index::Name;
use report_core::{Answer, Refused, done};
use std::alloc::Global;
use user_model::Objective;

/// Makes the edits of the file of a name, where no solver is attached and nothing stands in the
/// model.
pub(crate) fn load<B: Bridge, H: Shelf>(
    alloc: Global,
    cache: &mut Cache<B>,
    shelf: &mut H,
    name: &Name,
) -> Result<Answer, Memory>
    ensures step { let old = state_of cache.old in
        Makes (Loads (told_by (H.files shelf.old) (H.sure shelf.old)) old name.now) old result
        (state_of cache.new) }
    ensures untouched { IfOk result (λ answer. KeepsRefused answer cache.old cache.new) }
    ensures few { IfOk result (λ answer. TakesFew answer cache.old.lazy cache.new.lazy) }
    ensures files { H.files shelf.new ≡ H.files shelf.old }
    ensures sure { H.sure shelf.new ≡ H.sure shelf.old }
    ensures count { H.faults shelf.old ≤ H.faults shelf.new }
    ensures cause { result ≡ Ok Answer.ReadFault
        → HasFaulted (H.faults shelf.old) (H.faults shelf.new) }
    ensures sound { result ≢ Ok Answer.ReadFault → H.faults shelf.new ≡ H.faults shelf.old }
    ensures asks { let old = state_of cache.old in
        OnOk result (AsksFor (H.asked shelf.old) (H.asked shelf.new)
        (load_asks old.attached (bare.is_bare old.model) name.now)) }
{
    if cache.attached() {
        return refuse(alloc, &Refused::AlreadyAttached);
    }
    if !is_bare(cache.model()) {
        return refuse(alloc, &Refused::NotEmpty);
    }
    match fetch_edits(alloc, shelf, name) {
        Ok(edits) => make_all(alloc, cache, edits),
        Err(fault) => tell_fault(alloc, fault),
    }
}

// Whether nothing stands in a model.
fn is_bare(model: &UserModel) -> bool
    ensures { result ≡ bare.is_bare model.now.model }
{
    model.groups().is_empty() && model.rows().is_empty() && is_feasibility(model.objective())
}

fn is_feasibility(objective: &Objective) -> bool
    ensures { result ≡ bare.is_feasibility objective.now }
{
    matches!(objective, Objective::Feasibility)
}

// Makes edits one after another, or none of them.
fn make_all<B: Bridge>(alloc: Global, cache: &mut Cache<B>, edits: Edits) -> Result<Answer, Memory>
    requires detached { cache.old.attached ≡ false }
    ensures step { let old = state_of cache.old in
        Makes (TellsCall load_answer (IsLoaded old edits)) old result (state_of cache.new) }
    ensures untouched { IfOk result (λ answer. KeepsRefused answer cache.old cache.new) }
    ensures few { IfOk result (λ answer. TakesFew answer cache.old.lazy cache.new.lazy) }
{
    let made = cache.load(edits.into_vec());
    tell_loaded(alloc, made)
}

// What the edits of a file were answered.
fn tell_loaded(alloc: Global, made: Result<(), EditFault>) -> Result<Answer, Memory>
    ensures { IfOk result (λ answer. answer ≡ load_answer made) }
{
    match made {
        Ok(()) => done(alloc, None),
        Err(fault) => tell_refusal(alloc, edit_refusal(fault)),
    }
}
