//! What edges may cost.
ghost use Rattle.std.specs.Prelude.{◌≡◌, IsTrue, None, Some, if◌then◌else◌};
ghost use Rattle.bridge_graph.specs.Hypergraph.{is_edge_cost};

use std::marker::Model;

/// The most that an edge costs.
const MOST_COST: u32 = 1000;

/// What an edge may cost: 1 to 1,000.
#[derive(Clone, Copy, Debug, PartialEq, Eq)]
pub struct EdgeCost {
    cost: u32,
}

impl Model for EdgeCost {
    ghost use Rattle.std.specs.Prelude.{IsTrue, ℕ};
    ghost use Rattle.bridge_graph.specs.Hypergraph.{is_edge_cost};

    ghost Value = { ℕ };

    ghost view = { λ c. c.cost };

    ghost invariant = { λ c. IsTrue (is_edge_cost c.cost) };

    ghost inverse = { λ cost. record { cost = cost } };
}

impl EdgeCost {
    /// The cost, if an edge may have it.
    pub fn new(cost: u32) -> Option<EdgeCost>
        ensures { result ≡ (if is_edge_cost cost then Some cost else None) }
    {
        if 1 <= cost && cost <= MOST_COST {
            Some(EdgeCost { cost })
        } else {
            None
        }
    }

    pub fn get(self) -> u32
        ensures value { result ≡ self }
        ensures within { IsTrue (is_edge_cost result) }
    {
        self.cost
    }
}
