//! The plan of a bridging: its leaves and its nodes.
ghost use Rattle.std.specs.Prelude.{◌≡◌, [], IfOk};

use bridge_face::KeptItem;
use item_core::Item;
use lists::Memory;
use std::alloc::Global;

/// What a bridging holds: the leaves, which the solver is given, and the nodes, which the bridges
/// keep, each in the order of the bridging.
#[derive(Debug, Drop)]
pub struct Plan {
    pub leaves: Vec<Item>,
    pub nodes: Vec<KeptItem>,
}

impl Plan {
    /// A plan of nothing, with room for this number of leaves and of nodes.
    pub fn with_capacity(alloc: Global, count: usize) -> Result<Plan, Memory>
        ensures leaves { IfOk result (λ plan. plan.leaves.items ≡ []) }
        ensures nodes { IfOk result (λ plan. plan.nodes.items ≡ []) }
    {
        Ok(Plan {
            leaves: Vec::with_capacity(alloc, count)?,
            nodes: Vec::with_capacity(alloc, count)?,
        })
    }

    /// A plan of nothing.
    pub fn new(alloc: Global) -> Plan
        ensures leaves { result.leaves.items ≡ [] }
        ensures nodes { result.nodes.items ≡ [] }
    {
        Plan {
            leaves: Vec::new(alloc),
            nodes: Vec::new(alloc),
        }
    }
}
