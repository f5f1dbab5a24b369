//! The lazy bridging of a user's model.
ghost use Rattle.std.specs.Prelude.{◌≡◌, ◌≢◌, ◌↔◌, All, Err, IfOk, IfSome, IsNone, IsSome, IsTrue, OnErr, OnOk};
ghost use Rattle.std.specs.Prelude as prelude;
ghost use Rattle.std.specs.FinMap as finite;
ghost use Rattle.std.specs.List.{list_all};
ghost use Rattle.aff_core.specs.Address.{Address, root_address};
ghost use Rattle.aff_core.specs.declared.root.Root.TheVariants.{Objective};
ghost use Rattle.bridge_set.specs.Bridges.{families_of, means_of, occur_once};
ghost use Rattle.bridge_graph.specs.Hypergraph.{is_edge_cost};
ghost use Rattle.bridge_graph.specs.Tree.{IsLeastCost, IsTreeless};
ghost use Rattle.bridge_plan.specs.Means.{AreSound};
ghost use Rattle.fresh_bridging.specs.TheRules.{IsChoice, graph_of};
ghost use Rattle.item_core.specs.Kind.{kind_number};
ghost use Rattle.leaf_update.specs.Named.{NamesEach};
ghost use Rattle.lazy_bridge.specs.Few.{CanPush, ChangesFew, IsPushedByFew, IsRetabledByFew};
ghost use Rattle.lazy_bridge.specs.Native.{supports_native};
ghost use Rattle.lazy_bridge.specs.Owned.{HoldsNothing, IsBridgingOf, leaf_model_in, setting_in};
ghost use Rattle.lazy_bridge.specs.Plans.{HoldsPlan, IsPuttable};
ghost use Rattle.lazy_bridge.specs.Pushed.{Counts, IsBridgedBy, IsPlannedBy};
ghost use Rattle.lazy_bridge.specs.Tables.{IsRetabledFrom, IsTableStart};
ghost use Rattle.item_core.specs.declared.table.Table.{Table};
ghost use Rattle.objective_laws.specs.ObjectivePlace.{BridgesLeadTo};
ghost use Rattle.small_number_laws.specs.SmallNumbers.{HasSmallNumbers};
ghost use Rattle.solver_store.specs.SolverModel.{no_leaves};
ghost use Rattle.user_model.specs.Model.{ModelValue};
ghost use Rattle.user_model.specs.Valid.{IsValid};

use crate::change::{capped, let_all_go, put_model};
use crate::pushing::push_touched;
use crate::retabling::retable;
use address_map::AddressMap;
use aff_core::{Address, Root};
use bridge_face::Bridge;
use bridge_graph::Choice;
use bridge_plan::Rewriter;
use bridge_set::BridgeSet;
use item_core::{Kind, Table};
use lists::Memory;
use model_bridging::{ModelPlan, PushFault, plan_model};
use model_store::{CountedView, Undo, UserModel};
use solver_store::SolverModel;
use std::alloc::Global;
use std::marker::Model;
use table_change::{Choices, list_choices};

/// Bridges, and the solver's model and map that are kept as the fresh bridging of a user's model.
#[derive(Drop)]
pub struct Lazy<B: Bridge> {
    alloc: Global,
    bridges: BridgeSet<B>,
    solver: SolverModel,
    map: AddressMap,
    objective_at: Address,
}

impl<B: Bridge> Model for Lazy<B> {
    ghost use Rattle.lazy_bridge.specs.Owned.{Owned, owned_code};

    ghost Value = { Owned };

    ghost coded = { owned_code };

    ghost use Rattle.std.specs.Prelude.{IsTrue};
    ghost use Rattle.leaf_update.specs.Named.{NamesEach};
    ghost use Rattle.lazy_bridge.specs.Native.{supports_native};

    ghost view = { λ l. record {
      bridges = l.bridges;
      solver = l.solver;
      map = l.map;
      objective_at = l.objective_at;
    } };

    ghost invariant = { λ l. IsTrue (supports_native l.bridges.table)
        × NamesEach l.map l.solver.leaves };
}

impl<B: Bridge> Lazy<B> {
    /// A bridging that holds nothing. Costs are 1 to 1,000, native kinds and free variables alone
    /// are supported, and no family occurs twice.
    pub fn new(
        alloc: Global,
        table: Table,
        bridges: Vec<B>,
        solver: SolverModel,
        map: AddressMap,
    ) -> Lazy<B>
        requires costs { IsTrue (list_all is_edge_cost table.cost) }
        requires native { IsTrue (supports_native table) }
        requires once { IsTrue (occur_once (families_of (prelude.map B.state bridges.items))) }
        requires kept { All (λ s. s.kept ≡ finite.empty) (prelude.map B.state bridges.items) }
        requires solver { solver.leaves ≡ no_leaves solver.leaves.calls }
        requires vars { map.vars.indices ≡ finite.empty }
        requires rows { map.rows.indices ≡ finite.empty }
        requires exprs { map.exprs ≡ finite.empty }
        requires noted { map.noted ≡ finite.empty }
        requires marks { map.kept ≡ finite.empty }
        ensures nothing { HoldsNothing result }
        ensures table { result.bridges.table ≡ table }
        ensures states { result.bridges.states ≡ prelude.map B.state bridges.items }
    {
        Lazy {
            alloc,
            bridges: BridgeSet::new(table, bridges),
            solver,
            map,
            objective_at: Address::root(Root::Objective, 0),
        }
    }

    /// Bridges a model, where nothing is held. The answer is the number of leaves. Where each
    /// number of the model is whole and at most 2^40 in size, it is never `Overflow`, whatever the
    /// table. The solver's model is called at most once a leaf.
    pub fn fill(&mut self, model: &UserModel) -> Result<u64, PushFault>
        requires { HoldsNothing self.old }
        ensures bridged { IsBridgedBy self.old self.old.bridges.table model.now.model
            result self.new }
        ensures small { HasSmallNumbers model.now.model
            → (at : Address) → result ≢ Err (PushFault.Overflow at) }
        ensures few { IfOk result (λ changed. ChangesFew self.old changed self.new) }
    {
        let planned = self.plan(model)?;
        Ok(self.put(planned, model)?)
    }

    /// Bridges the model that is read in place of the one before, to which the undos lead back, the
    /// last first. What they don't touch isn't looked at: an edit costs what it touches. The answer
    /// is the number of addresses at which the leaves differ, and the solver's model is called no
    /// more often: a leaf that stays keeps its index, and is not touched where it is the same.
    pub fn push<'a>(
        &mut self,
        after: &mut CountedView<'a>,
        undos: &'a [Undo],
    ) -> Result<u64, PushFault>
        requires { CanPush self.old undos.now after.old.model }
        ensures bridged { IsBridgedBy self.old self.old.bridges.table after.old.model
            result self.new }
        ensures small { HasSmallNumbers after.old.model
            → (at : Address) → result ≢ Err (PushFault.Overflow at) }
        ensures few { IfOk result (λ changed. ChangesFew self.old changed self.new) }
        ensures touched { OnOk result (IsPushedByFew self.old undos.now after.old.model
            after.old.reads self.new after.new.reads) }
        ensures same { after.new.model ≡ after.old.model }
    {
        // what this ensures of the choices and the families
        let _sound = self.bridges.table();
        match push_touched(
            self.alloc,
            &mut self.bridges,
            &mut self.solver,
            &mut self.map,
            &mut self.objective_at,
            after,
            undos,
        ) {
            Ok(changed) => {
                // what this ensures of the count
                let _few = self.solver.calls();
                Ok(capped(changed))
            }
            Err(fault) => {
                if let PushFault::Memory = fault {
                    let_all_go(&mut self.bridges, &mut self.solver, &mut self.map);
                    return Err(PushFault::Memory);
                }
                Err(fault)
            }
        }
    }

    /// Bridges the model by another table in place of the one by which its bridging stands, with the
    /// same answer and the same few calls. Each item is looked at, and none is planned that isn't
    /// bridged otherwise: one of a kind that the table changes, or that names such a variable.
    pub fn set_table(&mut self, model: &UserModel, table: Table) -> Result<u64, PushFault>
        requires costs { IsTrue (list_all is_edge_cost table.cost) }
        requires native { IsTrue (supports_native table) }
        requires stands { IsBridgingOf self.old model.now.model }
        ensures bridged { IsBridgedBy self.old table model.now.model result self.new }
        ensures small { HasSmallNumbers model.now.model
            → (at : Address) → result ≢ Err (PushFault.Overflow at) }
        ensures few { IfOk result (λ changed. ChangesFew self.old changed self.new) }
        ensures touched { OnOk result (IsRetabledByFew self.old model.now.model self.new) }
    {
        let before = *self.table();
        let choices = list_choices(&self.bridges);
        self.preset(table);
        match self.rebridge(model, &choices) {
            Ok(count) => Ok(count),
            Err(fault) => {
                self.preset(before);
                Err(fault)
            }
        }
    }

    /// Sets the table, where nothing is held.
    pub fn preset(&mut self, table: Table)
        requires costs { IsTrue (list_all is_edge_cost table.cost) }
        requires native { IsTrue (supports_native table) }
        ensures table { self.new.bridges.table ≡ table }
        ensures states { self.new.bridges.states ≡ self.old.bridges.states }
        ensures solver { self.new.solver ≡ self.old.solver }
        ensures map { self.new.map ≡ self.old.map }
        ensures objective_at { self.new.objective_at ≡ self.old.objective_at }
        ensures sound { AreSound (means_of self.new.bridges) }
    {
        self.bridges.choose(table);
    }

    // Bridges a model anew whose bridging by other choices stands.
    fn rebridge(&mut self, model: &UserModel, before: &Choices) -> Result<u64, PushFault>
        requires { (table : Table) × IsTableStart self.old.bridges table before.now self.old.solver
            self.old.map self.old.objective_at model.now.model }
        ensures bridged { IsBridgedBy self.old self.old.bridges.table model.now.model
            result self.new }
        ensures small { HasSmallNumbers model.now.model
            → (at : Address) → result ≢ Err (PushFault.Overflow at) }
        ensures few { IfOk result (λ changed. ChangesFew self.old changed self.new) }
        ensures touched { OnOk result ((table : Table)
            → (start : IsTableStart self.old.bridges table before.now self.old.solver self.old.map
            self.old.objective_at model.now.model)
            → IsRetabledFrom self.old table before.now model.now.model start self.new) }
    {
        // what this ensures of the choices and the families
        let _sound = self.bridges.table();
        match retable(
            self.alloc,
            &mut self.bridges,
            &mut self.solver,
            &mut self.map,
            &mut self.objective_at,
            model,
            before,
        ) {
            Ok(changed) => {
                // what this ensures of the count
                let _few = self.solver.calls();
                Ok(capped(changed))
            }
            Err(fault) => {
                if let PushFault::Memory = fault {
                    let_all_go(&mut self.bridges, &mut self.solver, &mut self.map);
                    return Err(PushFault::Memory);
                }
                Err(fault)
            }
        }
    }

    // Plans a model's bridging by the table, or frees all where memory runs out.
    fn plan(&mut self, model: &UserModel) -> Result<ModelPlan, PushFault>
        ensures planned { IsPlannedBy self.old model.now.model result self.new }
        ensures puttable { IfOk result (IsPuttable (families_of self.new.bridges.states)) }
        ensures valid { IsValid model.now.model }
        ensures small { HasSmallNumbers model.now.model
            → (at : Address) → result ≢ Err (PushFault.Overflow at) }
    {
        // what these ensure of the choices and of the model
        let _sound = self.bridges.table();
        let _valid = model.objective();
        match plan_model(self.alloc, &mut self.bridges, model) {
            Ok(planned) => Ok(planned),
            Err(fault) => {
                if let PushFault::Memory = fault {
                    self.clear();
                    return Err(PushFault::Memory);
                }
                Err(fault)
            }
        }
    }

    // Puts a model's plan in, where no node and no expression is held, or frees all.
    fn put(&mut self, planned: ModelPlan, model: &UserModel) -> Result<u64, Memory>
        requires planned { IsPuttable (families_of self.old.bridges.states) planned }
        requires kept { All (λ s. s.kept ≡ finite.empty) self.old.bridges.states }
        requires exprs { self.old.map.exprs ≡ finite.empty }
        ensures holds { IfOk result (λ changed. HoldsPlan self.old model.now.model planned self.new
            × Counts (leaf_model_in self.old) (leaf_model_in self.new) changed) }
        ensures few { IfOk result (λ changed. ChangesFew self.old changed self.new) }
        ensures err { OnErr result (HoldsNothing self.new) }
        ensures setting { setting_in self.new ≡ setting_in self.old }
    {
        match put_model(
            self.alloc,
            &mut self.bridges,
            &mut self.solver,
            &mut self.map,
            &mut self.objective_at,
            planned,
            model,
        ) {
            Ok(changed) => {
                // what this ensures of the count
                let _few = self.solver.calls();
                Ok(capped(changed))
            }
            Err(memory) => {
                let_all_go(&mut self.bridges, &mut self.solver, &mut self.map);
                Err(memory)
            }
        }
    }

    /// Frees all that is kept. The solver's model is not called.
    pub fn clear(&mut self)
        ensures nothing { HoldsNothing self.new }
        ensures setting { setting_in self.new ≡ setting_in self.old }
        ensures choices { self.new.bridges.choices ≡ self.old.bridges.choices }
        ensures calls { self.new.solver.leaves.calls ≡ self.old.solver.leaves.calls }
    {
        let_all_go(&mut self.bridges, &mut self.solver, &mut self.map);
    }

    /// The table by which the model is bridged: what the solver takes, and what each edge costs.
    pub fn table(&self) -> &Table
        ensures table { result.now ≡ self.now.bridges.table }
        ensures costs { IsTrue (list_all is_edge_cost self.now.bridges.table.cost) }
        ensures native { IsTrue (supports_native self.now.bridges.table) }
        ensures sound { AreSound (means_of self.now.bridges) }
        ensures once { IsTrue (occur_once (families_of self.now.bridges.states)) }
    {
        self.bridges.table()
    }

    /// The solver's model, which holds the leaves.
    pub fn solver(&self) -> &SolverModel
        ensures { result.now ≡ self.now.solver }
    {
        &self.solver
    }

    /// The map of addresses, which names exactly what the solver's model has.
    pub fn map(&self) -> &AddressMap
        ensures map { result.now ≡ self.now.map }
        ensures named { NamesEach self.now.map self.now.solver.leaves }
    {
        &self.map
    }

    /// The bridges, one a family at most, each with the items that it keeps.
    pub fn bridges(&self) -> &[B]
        ensures { prelude.map B.state result.now ≡ self.now.bridges.states }
    {
        self.bridges.bridges()
    }

    /// The address of the objective of the solver's model: the one to which the bridges lead from
    /// the root of the user's objective.
    pub fn objective_at(&self) -> &Address
        ensures at { result.now ≡ self.now.objective_at }
        ensures place { (model : ModelValue) → IsBridgingOf self.now model
            → IsSome self.now.solver.leaves.objective
            → BridgesLeadTo self.now.bridges.states (root_address Objective 0) result.now }
    {
        // what this ensures of the choices and of the table
        let _sound = self.bridges.table();
        &self.objective_at
    }

    /// How an item of the kind reaches the solver at least cost.
    pub fn choice(&self, kind: Kind) -> Choice
        ensures { IsChoice (graph_of (setting_in self.now)) (kind_number kind) result }
    {
        // what this ensures of the choices
        let _sound = self.bridges.table();
        self.bridges.choice(kind)
    }

    /// The least cost of a tree of the kind, if it has one.
    pub fn cost(&self, kind: Kind) -> Option<u128>
        ensures none { IsNone result
            ↔ IsTreeless (graph_of (setting_in self.now)) (kind_number kind) }
        ensures least { IfSome result
            (IsLeastCost (graph_of (setting_in self.now)) (kind_number kind)) }
    {
        self.bridges.cost(kind)
    }
}
