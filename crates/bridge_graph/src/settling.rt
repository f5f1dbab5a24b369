//! The kinds are settled one at a time, by the cheapest edge from an open kind whose children are
//! all settled.
//!
//! No tree of an open kind costs less than that edge with its children, since some edge of such a
//! tree leads from an open kind to settled ones (Knuth, "A generalization of Dijkstra's algorithm",
//! 1977).
ghost use Rattle.std.specs.Prelude.{◌≡◌, ◌<◌, ◌≤◌, ◌^◌, ◌↔◌, ℕ, IsTrue, length, IsNone, IfSome};
ghost use Rattle.std.specs.List.{list_all};
ghost use Rattle.bridge_graph.specs.Hypergraph.{hypergraph_of, children_of, has_kinds_below, is_edge_cost};
ghost use Rattle.bridge_graph.specs.KindPlan.{plan_at, cost_of, ArePlansWithin, IsGraphSolved, start_at};
ghost use Rattle.bridge_graph.specs.Candidate.{with_children, cheaper_of, IsCandidateStep, IsCheapest};

use crate::EdgeRow;

/// How a kind is reached, as far as it is known.
#[derive(Clone, Copy, Debug)]
pub enum KindPlan {
    /// By no tree that is known.
    Open,
    /// The kind is supported.
    Native,
    /// By a tree that begins with this edge.
    By { edge: u8, cost: u128 },
}

impl KindPlan {
    /// Whether no tree is known.
    fn is_open(self) -> bool
        ensures { IsTrue result ↔ (self ≡ KindPlan.Open) }
    {
        matches!(self, KindPlan::Open)
    }

    /// What the tree costs, if there is one.
    pub fn cost(self) -> Option<u128>
        ensures { result ≡ cost_of self }
    {
        match self {
            KindPlan::Open => None,
            KindPlan::Native => Some(0),
            KindPlan::By { cost, .. } => Some(cost),
        }
    }
}

/// An edge by which a kind can be settled, and what its tree costs.
#[derive(Clone, Copy, Debug)]
struct Step {
    kind: u8,
    edge: u8,
    cost: u128,
}

/// Works out the plan of each kind.
pub fn settle(
    edges: &[EdgeRow],
    costs: &[u32],
    supported: &[bool],
    on: &[bool],
    plans: &mut [KindPlan],
)
    requires few { length plans.old ≤ 64 }
    requires numbers { length edges.now ≤ 256 }
    requires costs { length costs.now ≡ length edges.now }
    requires supported { length supported.now ≡ length plans.old }
    requires on { length on.now ≡ length edges.now }
    requires kinds { IsTrue (list_all (has_kinds_below (length plans.old)) edges.now) }
    requires edge_costs { IsTrue (list_all is_edge_cost costs.now) }
    ensures { IsGraphSolved (hypergraph_of edges.now costs.now supported.now on.now) plans.new }
{
    start(supported, plans);
    while let Some(step) = cheapest(edges, costs, on, plans) {
        plans[step.kind as usize] = KindPlan::By {
            edge: step.edge,
            cost: step.cost,
        };
    }
}

/// The plans of the kinds before any edge is used.
fn start(supported: &[bool], plans: &mut [KindPlan])
    requires { length supported.now ≡ length plans.old }
    ensures { (kind : ℕ) → plan_at plans.new kind ≡ start_at supported.now kind }
{
    for kind in 0..plans.len() {
        plans[kind] = if supported[kind] {
            KindPlan::Native
        } else {
            KindPlan::Open
        };
    }
}

/// The cheapest step, by the lowest edge where several cost the same.
fn cheapest(edges: &[EdgeRow], costs: &[u32], on: &[bool], plans: &[KindPlan]) -> Option<Step>
    requires numbers { length edges.now ≤ 256 }
    requires costs { length costs.now ≡ length edges.now }
    requires on { length on.now ≡ length edges.now }
    requires kinds { IsTrue (list_all (has_kinds_below (length plans.now)) edges.now) }
    requires within { ArePlansWithin plans.now (2 ^ 120) }
    ensures none { IsNone result → (step : Step)
        → IsCandidateStep edges.now costs.now on.now plans.now step → ⊥ }
    ensures cheapest { IfSome result (IsCheapest edges.now costs.now on.now plans.now) }
    ensures kind { IfSome result (λ step. step.kind < length plans.now) }
{
    let mut best = None;
    for edge in 0..edges.len() {
        if let Some(step) = candidate(edges, costs, on, plans, edge) {
            best = Some(cheaper(best, step));
        }
    }
    best
}

/// The best step so far, or a later edge's where that costs less.
fn cheaper(best: Option<Step>, step: Step) -> Step
    ensures { result ≡ cheaper_of best step }
{
    match best {
        Some(best) if best.cost <= step.cost => best,
        _ => step,
    }
}

/// The step by this edge, if the edge is on, its source is open and its children are settled.
fn candidate(
    edges: &[EdgeRow],
    costs: &[u32],
    on: &[bool],
    plans: &[KindPlan],
    edge: usize,
) -> Option<Step>
    requires numbers { length edges.now ≤ 256 }
    requires costs { length costs.now ≡ length edges.now }
    requires on { length on.now ≡ length edges.now }
    requires kinds { IsTrue (list_all (has_kinds_below (length plans.now)) edges.now) }
    requires within { ArePlansWithin plans.now (2 ^ 120) }
    requires edge { edge < length edges.now }
    ensures none { IsNone result → (step : Step) → step.edge ≡ edge
        → IsCandidateStep edges.now costs.now on.now plans.now step → ⊥ }
    ensures step { IfSome result (IsCandidateStep edges.now costs.now on.now plans.now) }
    ensures place { IfSome result (λ step. (step.edge ≡ edge) × (step.kind < length plans.now)) }
{
    let row = edges[edge];
    if !on[edge] || !plans[row.source as usize].is_open() {
        return None;
    }
    let cost = total(&row, costs[edge], plans)?;
    Some(Step {
        kind: row.source,
        edge: edge as u8,
        cost,
    })
}

/// What an edge costs with its children, if each of them is settled.
fn total(row: &EdgeRow, cost: u32, plans: &[KindPlan]) -> Option<u128>
    requires kinds { IsTrue (has_kinds_below (length plans.now) row.now) }
    requires within { ArePlansWithin plans.now (2 ^ 120) }
    ensures { result ≡ with_children plans.now cost (children_of row.now) }
{
    let mut total = u128::from(cost);
    for kind in &row.children[..row.count as usize] {
        total += plans[*kind as usize].cost()?;
    }
    Some(total)
}
