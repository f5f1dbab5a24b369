//! Least-cost choice over a hypergraph of kinds.
//!
//! A solver supports some kinds of function in set. Each edge rewrites an item of its source kind
//! as items of its child kinds, at a cost. A tree of a kind is native, where the kind is supported,
//! or an edge that is on with a tree for each child kind that it lists. A tree's cost is the sum of
//! its edges' costs, so a child kind that is listed twice is paid twice.
#![tactic(auto)]

ghost use Rattle.std.specs.Prelude.{◌≡◌, ◌≤◌, ◌↔◌, ℕ, IsTrue, List, IsNone, IfSome};
ghost use Rattle.std.specs.List.{list_all};

mod settling;

use settling::{KindPlan, settle};
use std::marker::Model;

/// An edge: the kind that it rewrites, and the first `count` of `children`, the kinds that it leads
/// to.
#[derive(Clone, Copy, Debug, PartialEq, Eq)]
pub struct EdgeRow {
    pub source: u8,
    pub children: [u8; 3],
    pub count: u8,
}

/// How an item of a kind reaches the solver at least cost.
#[derive(Clone, Copy, Debug, PartialEq, Eq)]
pub enum Choice {
    /// The solver supports the kind.
    Native,
    /// By the edge of this number, the lowest that begins a least-cost tree.
    By(u8),
    /// The kind has no tree.
    Missing,
}

/// The least-cost trees of `K` kinds over `E` edges.
///
/// Clauses see what the graph was built from.
#[derive(Debug, Drop)]
pub struct Graph<const K: usize, const E: usize> {
    edges: [EdgeRow; E],
    costs: [u32; E],
    supported: [bool; K],
    on: [bool; E],
    plans: [KindPlan; K],
}

impl<const K: usize, const E: usize> Model for Graph<K, E> {
    ghost use Rattle.bridge_graph.specs.Hypergraph.{Hypergraph, hypergraph_of};
    ghost use Rattle.bridge_graph.specs.KindPlan.{IsGraphSolved};

    ghost Value = { Hypergraph };

    ghost view = { λ g. hypergraph_of g.edges g.costs g.supported g.on };

    ghost invariant = { λ g. IsGraphSolved (hypergraph_of g.edges g.costs g.supported g.on) g.plans };
}

impl<const K: usize, const E: usize> Graph<K, E> {
    ghost use Rattle.bridge_graph.specs.Hypergraph.{hypergraph_of, has_kinds_below, is_edge_cost};
    ghost use Rattle.bridge_graph.specs.Hypergraph.{IsSupported};
    ghost use Rattle.bridge_graph.specs.Tree.{IsTreeless, IsLeastCost, IsFirstEdge, LeadsBelow};
    ghost use Rattle.bridge_graph.specs.KindPlan.{IsGraphSolved, IsLeastPlan};

    /// The graph of these edges with their costs of 1 to 1,000, of which those that are `on` may be
    /// used.
    ///
    /// Kinds and edges are numbered from 0, and an edge lists at most three children.
    pub fn build(
        edges: &[EdgeRow; E],
        costs: &[u32; E],
        supported: &[bool; K],
        on: &[bool; E],
    ) -> Graph<K, E>
        requires kinds { K ≤ 64 }
        requires numbers { E ≤ 256 }
        requires rows { IsTrue (list_all (has_kinds_below K) edges.now) }
        requires costs { IsTrue (list_all is_edge_cost costs.now) }
        ensures { result ≡ hypergraph_of edges.now costs.now supported.now on.now }
    {
        let mut plans = [KindPlan::Open; K];
        settle(edges, costs, supported, on, &mut plans);
        Graph {
            edges: *edges,
            costs: *costs,
            supported: *supported,
            on: *on,
            plans,
        }
    }

    /// How an item of this kind reaches the solver at least cost; a kind of number `K` or above is
    /// `Missing`.
    ///
    /// Each child of a chosen edge costs less than the kind, so whoever follows the choices comes
    /// to an end.
    pub fn choice(&self, kind: u8) -> Choice
        ensures native { (result ≡ Choice.Native) ↔ IsSupported self.now kind }
        ensures by { (edge : ℕ) → ((result ≡ Choice.By edge) ↔ IsFirstEdge self.now kind edge) }
        ensures missing { (result ≡ Choice.Missing) ↔ IsTreeless self.now kind }
        ensures cheaper { (edge cost : ℕ) → (result ≡ Choice.By edge)
            → IsLeastCost self.now kind cost → LeadsBelow self.now edge cost }
    {
        match self.plan(kind) {
            KindPlan::Open => Choice::Missing,
            KindPlan::Native => Choice::Native,
            KindPlan::By { edge, .. } => Choice::By(edge),
        }
    }

    /// The least cost of a tree of this kind, if it has one.
    pub fn cost(&self, kind: u8) -> Option<u128>
        ensures none { IsNone result ↔ IsTreeless self.now kind }
        ensures least { IfSome result (IsLeastCost self.now kind) }
    {
        self.plan(kind).cost()
    }

    fn plan(&self, kind: u8) -> KindPlan
        ensures plan { IsLeastPlan self.now kind result }
        ensures solved { (plans : List KindPlan) × IsGraphSolved self.now plans }
    {
        self.plans
            .get(kind as usize)
            .copied()
            .unwrap_or(KindPlan::Open)
    }
}
