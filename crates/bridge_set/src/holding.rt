//! The bridges.
ghost use Rattle.std.specs.Prelude.{◌≡◌, ◌↔◌, ◌≤◌, ◌+◌, All, IfSome, IsNone, IsTrue, OnErr, OnOk, length, map, true};
ghost use Rattle.std.specs.FinMap as finite;
ghost use Rattle.std.specs.List.{list_all, list_any};
ghost use Rattle.bridge_graph.specs.Hypergraph.{is_edge_cost};
ghost use Rattle.bridge_graph.specs.Tree.{IsLeastCost, IsTreeless};
ghost use Rattle.item_core.specs.Edge.{family_eq, family_of};
ghost use Rattle.item_core.specs.Kind.{kind_number};
ghost use Rattle.bridge_face.specs.Law.{IsItemFor};
ghost use Rattle.bridge_face.specs.BridgeState.{all_gone, given, tried};
ghost use Rattle.fresh_bridging.specs.TheRules.{graph_of};
ghost use Rattle.bridge_plan.specs.Means.{AreSound};
ghost use Rattle.bridge_set.specs.Bridges.{AreKeepable, IsAddressFree, at_family, families_of, kept_by, keeping, means_of, occur_once, setting_of};
ghost use Rattle.bridge_set.specs.Letting.{kept_count, without_found};
ghost use Rattle.bridge_set.specs.Adding.{AreFree, with_each};
ghost use Rattle.bridge_set.specs.Turns.{turns_of};

use crate::choosing::{choices_of, graph_of};
use crate::places::{ask_laws, clear_all, image_by, keep_by, let_found_go_by};
use aff_core::Address;
use bridge_face::{Bridge, KeptItem};
use bridge_graph::{Choice, Graph};
use bridge_plan::{Rewriter, edge_of};
use item_core::{EDGE_COUNT, Image, Item, KIND_COUNT, Kind, Table};
use lists::Memory;
use ratio_core::NumberFault;
use std::marker::Model;

/// Bridges, each of a family of its own, and the choices by a table and their families: an edge may
/// be used exactly where its family is on in the table and among the bridges.
///
/// Contracts see the table, the choices and the bridges' states.
#[derive(Drop)]
pub struct BridgeSet<B: Bridge> {
    table: Table,
    bridges: Vec<B>,
    graph: Graph<KIND_COUNT, EDGE_COUNT>,
    choices: [Choice; KIND_COUNT],
}

impl<B: Bridge> Model for BridgeSet<B> {
    ghost use Rattle.bridge_set.specs.Bridges.{Bridges, bridges_code};

    ghost Value = { Bridges };

    ghost coded = { bridges_code };

    ghost use Rattle.std.specs.Prelude.{map};
    ghost use Rattle.bridge_set.specs.Bridges.{bridges_of};
    ghost use Rattle.bridge_set.specs.Sound.{IsBridgeSetSound};

    ghost view = { λ b. bridges_of b.table b.choices (map B.state b.bridges.items) };

    ghost invariant = { λ b. IsBridgeSetSound b.graph (bridges_of b.table b.choices
        (map B.state b.bridges.items)) };
}

impl<B: Bridge> BridgeSet<B> {
    pub fn new(table: Table, bridges: Vec<B>) -> BridgeSet<B>
        requires costs { IsTrue (list_all is_edge_cost table.cost) }
        requires once { IsTrue (occur_once (families_of (map B.state bridges.items))) }
        ensures table { result.table ≡ table }
        ensures states { result.states ≡ map B.state bridges.items }
    {
        ask_laws(&bridges);
        let graph = graph_of(&table, &bridges);
        BridgeSet {
            choices: choices_of(&graph),
            table,
            bridges,
            graph,
        }
    }

    /// Chooses by another table.
    pub fn choose(&mut self, table: Table)
        requires { IsTrue (list_all is_edge_cost table.cost) }
        ensures table { self.new.table ≡ table }
        ensures states { self.new.states ≡ self.old.states }
        ensures sound { AreSound (means_of self.new) }
    {
        let graph = graph_of(&table, &self.bridges);
        self.choices = choices_of(&graph);
        self.graph = graph;
        self.table = table;
    }

    /// The table. The choices are those by it and the families, which occur once and keep the law.
    pub fn table(&self) -> &Table
        ensures table { result.now ≡ self.now.table }
        ensures costs { IsTrue (list_all is_edge_cost self.now.table.cost) }
        ensures sound { AreSound (means_of self.now) }
        ensures once { IsTrue (occur_once (families_of self.now.states)) }
    {
        &self.table
    }

    /// The bridges, in the order in which they were handed over.
    pub fn bridges(&self) -> &[B]
        ensures { map B.state result.now ≡ self.now.states }
    {
        &self.bridges
    }

    /// The least cost of a tree of the kind, if it has one.
    pub fn cost(&self, kind: Kind) -> Option<u128>
        ensures none { IsNone result
            ↔ IsTreeless (graph_of (setting_of self.now)) (kind_number kind) }
        ensures least { IfSome result
            (IsLeastCost (graph_of (setting_of self.now)) (kind_number kind)) }
    {
        self.graph.cost(kind as u8)
    }

    /// Has the bridge of the edge's family keep an item.
    pub fn keep(&mut self, node: KeptItem) -> Result<(), Memory>
        requires own { list_any (family_eq (family_of node.edge)) (families_of self.old.states)
            ≡ true }
        requires suits { IsItemFor node.edge node.item }
        requires free { IsAddressFree node.item.at self.old.states }
        ensures ok { OnOk result (self.new.states
            ≡ map (at_family (family_of node.edge) (λ s. given s node)) self.old.states) }
        ensures err { OnErr result (self.new.states
            ≡ map (at_family (family_of node.edge) tried) self.old.states) }
        ensures families { families_of self.new.states ≡ families_of self.old.states }
        ensures turns { turns_of self.new.states ≤ turns_of self.old.states + 1 }
        ensures table { self.new.table ≡ self.old.table }
        ensures choices { self.new.choices ≡ self.old.choices }
    {
        keep_by(&mut self.bridges, node)
    }

    /// Has each bridge keep the items that are by edges of its family, where none keeps anything.
    /// After `Memory` some are kept.
    pub fn keep_all(&mut self, nodes: Vec<KeptItem>) -> Result<(), Memory>
        requires nodes { AreKeepable (families_of self.old.states) nodes.items }
        requires empty { All (λ s. s.kept ≡ finite.empty) self.old.states }
        ensures kept { OnOk result (kept_by self.new.states
            ≡ map (keeping nodes.items) self.old.states) }
        ensures turns { turns_of self.new.states
            ≤ turns_of self.old.states + length nodes.items }
        ensures families { families_of self.new.states ≡ families_of self.old.states }
        ensures table { self.new.table ≡ self.old.table }
        ensures choices { self.new.choices ≡ self.old.choices }
    {
        self.keep_each(nodes)
    }

    /// Releases all that is kept at and below the items of the model at these addresses, a turn each.
    pub fn let_found_go(&mut self, found: &[Address])
        ensures gone { kept_by self.new.states
            ≡ map (without_found found.now) (kept_by self.old.states) }
        ensures turns { turns_of self.new.states + kept_count (kept_by self.new.states)
            ≤ turns_of self.old.states + kept_count (kept_by self.old.states) }
        ensures families { families_of self.new.states ≡ families_of self.old.states }
        ensures table { self.new.table ≡ self.old.table }
        ensures choices { self.new.choices ≡ self.old.choices }
    {
        let_found_go_by(&mut self.bridges, found);
    }

    /// Has each bridge keep the items that are by edges of its family, beside what it keeps already.
    /// After `Memory` some are kept.
    pub fn keep_each(&mut self, nodes: Vec<KeptItem>) -> Result<(), Memory>
        requires nodes { AreKeepable (families_of self.old.states) nodes.items }
        requires free { AreFree nodes.items (kept_by self.old.states) }
        ensures kept { OnOk result (kept_by self.new.states
            ≡ map (with_each nodes.items) (kept_by self.old.states)) }
        ensures turns { turns_of self.new.states
            ≤ turns_of self.old.states + length nodes.items }
        ensures families { families_of self.new.states ≡ families_of self.old.states }
        ensures table { self.new.table ≡ self.old.table }
        ensures choices { self.new.choices ≡ self.old.choices }
    {
        for node in nodes {
            self.keep(node)?;
        }
        Ok(())
    }

    /// Has each bridge let all items go.
    pub fn clear(&mut self)
        ensures states { self.new.states ≡ map all_gone self.old.states }
        ensures table { self.new.table ≡ self.old.table }
        ensures choices { self.new.choices ≡ self.old.choices }
    {
        clear_all(&mut self.bridges);
    }
}

impl<B: Bridge> Rewriter for BridgeSet<B> {
    ghost use Rattle.bridge_set.specs.Bridges.{means_of};

    ghost means = { means_of };

    ghost use Rattle.bridge_set.specs.Turns.{turns_of};

    ghost turns = { λ b. turns_of b.states };

    fn choice(&self, kind: Kind) -> Choice {
        self.choices[kind as usize]
    }

    fn image(&mut self, edge: u8, item: &Item) -> Result<Image, NumberFault> {
        image_by(&mut self.bridges, edge_of(edge), item)
    }
}
