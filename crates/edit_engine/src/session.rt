//! The session of a script.
ghost use Rattle.std.specs.Prelude.{◌≡◌, ◌≢◌, ◌≤◌, All, IsTrue, None, OnErr, OnOk, false};
ghost use Rattle.std.specs.Prelude as prelude;
ghost use Rattle.std.specs.FinMap as finite;
ghost use Rattle.bridge_set.specs.Bridges.{families_of, occur_once, setting_by};
ghost use Rattle.cache_layer.specs.Cached.{StandsAttached, model_in};
ghost use Rattle.cache_layer.specs.CacheState.{start, with_table};
ghost use Rattle.item_core.specs.Table.{target_table};
ghost use Rattle.item_core.specs.declared.table.Target.TheVariants.{Standard};
ghost use Rattle.lazy_bridge.specs.Few.{ChangesFew};
ghost use Rattle.edit_engine.specs.Counts.{TakesFew};
ghost use Rattle.edit_engine.specs.Held.{KeepsRefused, machine_of, state_of};
ghost use Rattle.edit_engine.specs.Lines.{line_asks, says_load};
ghost use Rattle.edit_engine.specs.Script.{Answered};
ghost use Rattle.io_face.specs.Fault.{HasFaulted};
ghost use Rattle.io_face.specs.Shelf.{AsksFor};
ghost use Rattle.io_face.specs.Told.{told_by};

use crate::lines::{preset, step};
use crate::tables::target_table;
use address_map::AddressMap;
use bridge_face::Bridge;
use cache_layer::Cache;
use io_face::Shelf;
use item_core::Target;
use lazy_bridge::Lazy;
use lists::Memory;
use model_store::UserModel;
use mof_read::Edits;
use report_core::Answer;
use solver_store::SolverModel;
use std::alloc::Global;
use std::marker::Model;

/// A cache that lines drive, with the edits of a group while one is open.
#[derive(Drop)]
pub struct Session<B: Bridge> {
    alloc: Global,
    cache: Cache<B>,
    group: Option<Edits>,
    pivots: u32,
}

impl<B: Bridge> Model for Session<B> {
    ghost use Rattle.edit_engine.specs.Held.{SessionValue, held_code};

    ghost Value = { SessionValue };

    ghost coded = { held_code };

    ghost view = { λ s. record { cache = s.cache; group = s.group; pivots = s.pivots } };
}

impl<B: Bridge> Session<B> {
    /// An empty model with no solver attached and no group open, the target `standard`, and an
    /// allowance of 100,000 pivots. No family occurs twice among the bridges, and they keep nothing.
    pub fn new(alloc: Global, bridges: Vec<B>) -> Session<B>
        requires once { IsTrue (occur_once (families_of (prelude.map B.state bridges.items))) }
        requires kept { All (λ s. s.kept ≡ finite.empty) (prelude.map B.state bridges.items) }
        ensures state { state_of result
            ≡ start (setting_by (target_table Standard) (prelude.map B.state bridges.items)) }
        ensures group { result.group ≡ None }
        ensures pivots { result.pivots ≡ 100000 }
    {
        let lazy = Lazy::new(
            alloc,
            target_table(Target::Standard),
            bridges,
            SolverModel::new(alloc),
            AddressMap::new(alloc),
        );
        Session {
            alloc,
            cache: Cache::new(alloc, UserModel::new(alloc), lazy),
            group: None,
            pivots: 100_000,
        }
    }

    /// Sets the table to a target's, and how many pivots a solve may take where its line names no
    /// number. No solver is attached.
    pub fn set_up(&mut self, target: Target, pivots: u32) -> Result<(), Memory>
        requires detached { (state_of self.old).attached ≡ false }
        ensures ok { OnOk result
            (state_of self.new ≡ with_table (state_of self.old) (target_table target)) }
        ensures allowance { OnOk result (self.new.pivots ≡ pivots) }
        ensures err { OnErr result (state_of self.new ≡ state_of self.old) }
        ensures kept { OnErr result (self.new.pivots ≡ self.old.pivots) }
        ensures group { self.new.group ≡ self.old.group }
        ensures few { OnOk result (ChangesFew self.old.cache.lazy 0 self.new.cache.lazy) }
    {
        preset(&mut self.cache, target_table(target))?;
        self.pivots = pivots;
        Ok(())
    }

    /// Answers a line, by one step of the script machine. The shelf is asked for a file by a line
    /// `load` alone.
    pub fn line<H: Shelf>(&mut self, line: &[u8], shelf: &mut H) -> Answer
        ensures step { let told = told_by (H.files shelf.old) (H.sure shelf.old) in
            Answered (machine_of self.old told) line.now result (machine_of self.new told) }
        ensures untouched { KeepsRefused result self.old.cache self.new.cache }
        // The solver's model is called at most as often as the number after `ok` says, and leaves
        // that stay keep their indices.
        ensures few { TakesFew result self.old.cache.lazy self.new.cache.lazy }
        // While a solver is attached, the fresh bridging of the model stands.
        ensures stands { let cache = self.new.cache in
            StandsAttached cache.attached cache.lazy (model_in cache) }
        ensures pivots { self.new.pivots ≡ self.old.pivots }

        // What the shelf tells stays.
        ensures files { H.files shelf.new ≡ H.files shelf.old }
        ensures sure { H.sure shelf.new ≡ H.sure shelf.old }
        ensures count { H.faults shelf.old ≤ H.faults shelf.new }
        // A fault of the shelf was counted.
        ensures cause { result ≡ Answer.ReadFault
            → HasFaulted (H.faults shelf.old) (H.faults shelf.new) }
        // And each fault was answered.
        ensures sound { result ≢ Answer.ReadFault → H.faults shelf.new ≡ H.faults shelf.old }
        // Only a line `load` asks for a file, for its own and once, while no group is open, no solver
        // is attached and nothing stands in the model.
        ensures asks { result ≢ Answer.Memory → AsksFor (H.asked shelf.old) (H.asked shelf.new)
            (line_asks (machine_of self.old (told_by (H.files shelf.old) (H.sure shelf.old)))
            line.now) }
        ensures unasked { says_load line.now ≡ false → shelf.new ≡ shelf.old }
    {
        let made = step(
            self.alloc,
            &mut self.cache,
            &mut self.group,
            self.pivots,
            shelf,
            line,
        );
        // what this ensures: what stands in the cache
        let _stands = self.cache.attached();
        made.unwrap_or(Answer::Memory)
    }

    /// The cache.
    pub fn cache(&self) -> &Cache<B>
        ensures { result.now ≡ self.now.cache }
    {
        &self.cache
    }
}
