//! The cache of a model.
ghost use Rattle.std.specs.Prelude.{◌≡◌, [], All, IsTrue};
ghost use Rattle.std.specs.Prelude as prelude;
ghost use Rattle.std.specs.FinMap as finite;
ghost use Rattle.std.specs.List.{list_all};
ghost use Rattle.bridge_graph.specs.Hypergraph.{is_edge_cost};
ghost use Rattle.bridge_set.specs.Bridges.{families_of, occur_once};
ghost use Rattle.cache_layer.specs.Cached.{state_of};
ghost use Rattle.item_core.specs.Table.{target_table};
ghost use Rattle.item_core.specs.declared.table.Target.TheVariants.{Standard};
ghost use Rattle.lazy_bridge.specs.Native.{supports_native};
ghost use Rattle.model_command.specs.Alone.{alone, standard_by};

use address_map::AddressMap;
use bridge_face::Bridge;
use cache_layer::Cache;
use item_core::{Table, Target};
use lazy_bridge::Lazy;
use model_store::UserModel;
use solver_store::SolverModel;
use std::alloc::Global;

/// The model with no solver attached, the target `standard` and these bridges. No family occurs
/// twice among them, and they keep nothing.
pub fn cache_of<B: Bridge>(alloc: Global, model: UserModel, bridges: Vec<B>) -> Cache<B>
    requires settled { model.parked ≡ [] }
    requires once { IsTrue (occur_once (families_of (prelude.map B.state bridges.items))) }
    requires kept { All (λ s. s.kept ≡ finite.empty) (prelude.map B.state bridges.items) }
    ensures { state_of result
        ≡ alone (standard_by (prelude.map B.state bridges.items)) model.model }
{
    let lazy = Lazy::new(
        alloc,
        standard_table(),
        bridges,
        SolverModel::new(alloc),
        AddressMap::new(alloc),
    );
    Cache::new(alloc, model, lazy)
}

// The table of the target `standard`.
fn standard_table() -> Table
    ensures value { result ≡ target_table Standard }
    ensures costs { IsTrue (list_all is_edge_cost result.cost) }
    ensures native { IsTrue (supports_native result) }
{
    Table::target(Target::Standard)
}
