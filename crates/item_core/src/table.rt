//! Tables: what of kinds, families and edges may be used, and at what cost.
ghost use Rattle.std.specs.Prelude.{◌≡◌, IsTrue};
ghost use Rattle.std.specs.List.{list_all};
ghost use Rattle.bridge_graph.specs.Hypergraph.{is_edge_cost};
ghost use Rattle.item_core.specs.Table.{supported_in, target_table};

use crate::{EDGE_COUNT, FAMILY_COUNT, KIND_COUNT, KINDS, KindTable};

/// Which kinds the solver supports, which families of bridges are on, and what each edge costs, by
/// their numbers from 0.
#[derive(Clone, Copy, Debug, PartialEq, Eq)]
pub struct Table {
    pub supported: [bool; KIND_COUNT],
    pub on: [bool; FAMILY_COUNT],
    pub cost: [u32; EDGE_COUNT],
}

/// A choice of kinds that a solver supports.
#[derive(Clone, Copy, Debug, PartialEq, Eq)]
pub enum Target {
    /// Nonnegative variables, equations of several components, and least values.
    Standard,
    Rows,
    Cone,
    /// Each native kind.
    All,
    /// Free variables, and rows with upper bounds alone.
    Less,
}

impl KindTable {
    // Which kinds the target supports.
    fn supported(&self, target: Target) -> [bool; KIND_COUNT]
        ensures { result ≡ supported_in self.now target }
    {
        match target {
            Target::Standard => self.standard,
            Target::Rows => self.rows,
            Target::Cone => self.cone,
            Target::All => self.all,
            Target::Less => self.less,
        }
    }
}

impl Table {
    /// The target's kinds, with every family on and every cost 1.
    #[tactic(auto, unfolding(crate::specs::Table::target_table))]
    pub fn target(target: Target) -> Table
        ensures value { result ≡ target_table target }
        ensures costs { IsTrue (list_all is_edge_cost result.cost) }
    {
        Table {
            supported: KINDS.supported(target),
            on: [true; FAMILY_COUNT],
            cost: [1; EDGE_COUNT],
        }
    }
}
