//! The cache.
ghost use Rattle.std.specs.Prelude.{◌≡◌, ◌≢◌, [], Err, IfErr, IfOk, IsTrue, Ok, false, true};
ghost use Rattle.std.specs.List.{list_all};
ghost use Rattle.bridge_graph.specs.Hypergraph.{is_edge_cost};
ghost use Rattle.lazy_bridge.specs.Few.{ChangesFew};
ghost use Rattle.lazy_bridge.specs.Native.{supports_native};
ghost use Rattle.lazy_bridge.specs.Owned.{HoldsNothing};
ghost use Rattle.cache_layer.specs.Answers.{Becomes, IsAttached, IsEdited, IsGroupAnswer, IsLoaded, UnlessAttached, UnlessRefused, as_edits};
ghost use Rattle.cache_layer.specs.Bridging.{stays};
ghost use Rattle.cache_layer.specs.Cached.{StandsAttached, model_in, state_of};
ghost use Rattle.cache_layer.specs.FewCalls.{AttachesFew, EditsFew};
ghost use Rattle.cache_layer.specs.Outcome.{IsOptimized};
ghost use Rattle.cache_layer.specs.CacheState.{detached, with_table};
ghost use Rattle.certificates.specs.Good.{Good};
ghost use Rattle.model_load.specs.Loads.{after_edits};
ghost use Rattle.report_core.specs.declared.refused.Place.{Place};
ghost use Rattle.small_number_laws.specs.SmallNumbers.{HasSmallNumbers};
ghost use Rattle.user_model.specs.Edited.{edited};
ghost use Rattle.user_model.specs.Model.{ModelValue};

use crate::bridging::fill;
use crate::edits::{edit_alone, edit_bridged, table_bridged};
use crate::groups::{group_alone, group_bridged};
use crate::optimize::optimize;
use crate::{AttachFault, Certificate, EditFault, GroupFault, NotAttached, OptFault};
use bridge_face::Bridge;
use item_core::Table;
use lazy_bridge::Lazy;
use model_load::load_all;
use model_store::UserModel;
use std::alloc::Global;
use std::marker::Model;
use user_model::Edit;

/// The user's model, and a lazy bridging that is kept as its fresh bridging while a solver is
/// attached, and holds nothing while none is.
#[derive(Drop)]
pub struct Cache<B: Bridge> {
    alloc: Global,
    user: UserModel,
    lazy: Lazy<B>,
    attached: bool,
}

impl<B: Bridge> Model for Cache<B> {
    ghost use Rattle.cache_layer.specs.Cached.{Cached, IsCacheInStep, cached, cached_code};

    ghost Value = { Cached };

    ghost coded = { cached_code };

    ghost view = { λ c. cached c.user c.lazy c.attached };

    ghost invariant = { λ c. IsCacheInStep (cached c.user c.lazy c.attached) };
}

impl<B: Bridge> Cache<B> {
    /// The model, of which no edit waits, and no solver attached.
    pub fn new(alloc: Global, model: UserModel, lazy: Lazy<B>) -> Cache<B>
        requires settled { model.parked ≡ [] }
        requires lazy { HoldsNothing lazy }
        ensures model { result.user ≡ model }
        ensures lazy { result.lazy ≡ lazy }
        ensures detached { result.attached ≡ false }
    {
        Cache {
            alloc,
            user: model,
            lazy,
            attached: false,
        }
    }

    /// Makes an edit. While a solver is attached, the answer is the number of addresses at which
    /// its model changes, which is called no more often: a leaf that stays keeps its index. Where
    /// each number of the edited model is whole and at most 2^40 in size, the answer is never
    /// `Overflow`, whatever the table.
    #[tactic(auto, using(crate::specs::FewCallsLaws::edits_same))]
    pub fn edit(&mut self, edit: Edit) -> Result<Option<u64>, EditFault>
        ensures answer { IsEdited (state_of self.old) edit result (state_of self.new) }
        ensures untouched { UnlessRefused result self.old self.new }
        ensures small { HasSmallNumbers (edited (model_in self.old) edit)
            → (place : Place) → result ≢ Err (EditFault.Overflow place) }
        ensures few { EditsFew result self.old.lazy self.new.lazy }
    {
        if !self.attached {
            edit_alone(&mut self.user, edit)?;
            return Ok(None);
        }
        let answer = edit_bridged(&mut self.user, &mut self.lazy, edit);
        self.attached = stays(&answer);
        answer
    }

    /// Makes copies of edits one after another, or none of them: the first that is refused is the
    /// answer, by its number from 1. Only the model after all of them is bridged, and none between
    /// has to have a bridging. While a solver is attached, the answer is the number of addresses at
    /// which its model changes from before the first to behind the last, and it is called no more
    /// often, as by an edit.
    pub fn group(&mut self, edits: &[Edit]) -> Result<Option<u64>, GroupFault>
        ensures answer { IsGroupAnswer (state_of self.old) edits.now result (state_of self.new) }
        ensures untouched { UnlessRefused (as_edits result) self.old self.new }
        ensures small { (made : ModelValue) → after_edits (model_in self.old) edits.now ≡ Ok made
            → HasSmallNumbers made → (place : Place) → result ≢ Err (GroupFault.Overflow place) }
        ensures few { EditsFew (as_edits result) self.old.lazy self.new.lazy }
    {
        if !self.attached {
            group_alone(self.alloc, &mut self.user, edits)?;
            return Ok(None);
        }
        let answer = group_bridged(self.alloc, &mut self.user, &mut self.lazy, edits);
        self.attached = stays_after(&answer);
        answer
    }

    /// Makes edits one after another while no solver is attached, or none of them: the refusal of
    /// the first that is refused is the answer.
    pub fn load(&mut self, edits: Vec<Edit>) -> Result<(), EditFault>
        requires { self.old.attached ≡ false }
        ensures answer { IsLoaded (state_of self.old) edits.items result (state_of self.new) }
        ensures lazy { self.new.lazy ≡ self.old.lazy }
        ensures untouched { UnlessRefused result self.old self.new }
    {
        load_all(&mut self.user, edits)?;
        Ok(())
    }

    /// Bridges by another table. While a solver is attached, the answer is the number of addresses
    /// at which its model changes, which is called no more often, as by an edit.
    #[tactic(auto, using(crate::specs::FewCallsLaws::few_kept))]
    pub fn table(&mut self, table: Table) -> Result<Option<u64>, EditFault>
        requires costs { IsTrue (list_all is_edge_cost table.cost) }
        requires native { IsTrue (supports_native table) }
        ensures answer { Becomes (state_of self.old) (with_table (state_of self.old) table) result
            (state_of self.new) }
        ensures untouched { UnlessRefused result self.old self.new }
        ensures small { HasSmallNumbers (model_in self.old)
            → (place : Place) → result ≢ Err (EditFault.Overflow place) }
        ensures few { EditsFew result self.old.lazy self.new.lazy }
    {
        if !self.attached {
            self.lazy.preset(table);
            return Ok(None);
        }
        let answer = table_bridged(&self.user, &mut self.lazy, table);
        self.attached = stays(&answer);
        answer
    }

    /// Attaches a solver. The answer is the number of its leaves; its model is called no more often.
    #[tactic(auto, using(crate::specs::FewCallsLaws::few_same))]
    pub fn attach(&mut self) -> Result<u64, AttachFault>
        ensures answer { IsAttached (state_of self.old) result (state_of self.new) }
        ensures untouched { UnlessAttached result self.old self.new }
        ensures small { HasSmallNumbers (model_in self.old)
            → (place : Place) → result ≢ Err (AttachFault.Overflow place) }
        ensures few { AttachesFew result self.old.lazy self.new.lazy }
    {
        if self.attached {
            return Err(AttachFault::AlreadyAttached);
        }
        let leaves = fill(&mut self.lazy, &self.user)?;
        self.attached = true;
        Ok(leaves)
    }

    /// Detaches the solver, whose model is empty afterwards, without a call. Refused exactly where
    /// none is attached.
    #[tactic(auto, using(crate::specs::FewCallsLaws::few_same))]
    pub fn detach(&mut self) -> Result<(), NotAttached>
        ensures ok { IfOk result (λ _. (self.old.attached ≡ true)
            × (state_of self.new ≡ detached (state_of self.old))) }
        ensures refused { IfErr result (λ _. (self.old.attached ≡ false) × (self.new ≡ self.old)) }
        ensures few { ChangesFew self.old.lazy 0 self.new.lazy }
    {
        if !self.attached {
            return Err(NotAttached);
        }
        self.lazy.clear();
        self.attached = false;
        Ok(())
    }

    /// Solves the solver's model with at most this number of pivots. The certificate is in the
    /// user's rows, and good for the user's model.
    pub fn optimize(&self, pivots: u64) -> Result<Certificate, OptFault>
        ensures outcome { IsOptimized (state_of self.now) pivots result }
        ensures good { IfOk result (Good (model_in self.now)) }
    {
        if !self.attached {
            return Err(OptFault::NotAttached);
        }
        optimize(self.alloc, &self.lazy, &self.user, pivots)
    }

    /// Whether a solver is attached. While one is, the fresh bridging of the model stands.
    pub fn attached(&self) -> bool
        ensures value { result ≡ self.now.attached }
        ensures stands { StandsAttached self.now.attached self.now.lazy (model_in self.now) }
    {
        self.attached
    }

    /// The user's model, of which no edit waits.
    pub fn model(&self) -> &UserModel
        ensures value { result.now ≡ self.now.user }
        ensures settled { self.now.user.parked ≡ [] }
    {
        &self.user
    }

    /// The bridging.
    pub fn lazy(&self) -> &Lazy<B>
        ensures { result.now ≡ self.now.lazy }
    {
        &self.lazy
    }
}

// Whether a solver that was attached still is after an answer.
fn stays(answer: &Result<Option<u64>, EditFault>) -> bool
    ensures { result ≡ stays answer.now }
{
    !matches!(answer, Err(EditFault::Memory))
}

// The same after a group of edits.
fn stays_after(answer: &Result<Option<u64>, GroupFault>) -> bool
    ensures { result ≡ stays (as_edits answer.now) }
{
    !matches!(answer, Err(GroupFault::Memory))
}
