//! What lines do to a table.
ghost use Rattle.std.specs.Prelude.{◌≡◌, IsTrue, length};
ghost use Rattle.std.specs.List.{list_all};
ghost use Rattle.bridge_graph.specs.Hypergraph.{is_edge_cost};
ghost use Rattle.item_core.specs.Table.{target_table};
ghost use Rattle.item_core.specs.Kind.{kind_count};
ghost use Rattle.lazy_bridge.specs.Native.{supports_native};
ghost use Rattle.edit_engine.specs.Tables.{costing, free_with, supporting, switched, targeted};

use item_core::{Edge, Family, KIND_COUNT, Kind, Table, Target};
use script_core::EdgeCost;
use script_tokens::NativeKind;

// The target's own table.
pub(crate) fn target_table(target: Target) -> Table
    ensures value { result ≡ target_table target }
    ensures costs { IsTrue (list_all is_edge_cost result.cost) }
    ensures native { IsTrue (supports_native result) }
{
    Table::target(target)
}

// The target's kinds alone are supported.
pub(crate) fn targeted(target: Target, table: &Table) -> Table
    requires costs { IsTrue (list_all is_edge_cost table.now.cost) }
    ensures value { result ≡ targeted target table.now }
    ensures costs { IsTrue (list_all is_edge_cost result.cost) }
    ensures native { IsTrue (supports_native result) }
{
    let own = target_table(target);
    let supported = own.supported;
    let mut changed = *table;
    changed.supported = supported;
    changed
}

// Whether a native kind is supported, and with groups in `Reals` whether free variables are.
pub(crate) fn supporting(kind: NativeKind, value: bool, table: &Table) -> Table
    requires costs { IsTrue (list_all is_edge_cost table.now.cost) }
    requires native { IsTrue (supports_native table.now) }
    ensures value { result ≡ supporting kind value table.now }
    ensures costs { IsTrue (list_all is_edge_cost result.cost) }
    ensures native { IsTrue (supports_native result) }
{
    let kind = kind.kind();
    let mut supported = table.supported;
    supported[kind as usize] = value;
    let mut changed = *table;
    changed.supported = free_with(kind, value, supported);
    changed
}

// Free variables with groups in `Reals`.
fn free_with(kind: Kind, value: bool, mut supported: [bool; KIND_COUNT]) -> [bool; KIND_COUNT]
    ensures value { result ≡ free_with kind value supported }
    ensures kinds { length supported ≡ kind_count }
{
    match kind {
        Kind::GroupReals => {
            supported[Kind::Free as usize] = value;
            supported
        }
        _ => supported,
    }
}

pub(crate) fn costing(edge: Edge, cost: EdgeCost, table: &Table) -> Table
    requires costs { IsTrue (list_all is_edge_cost table.now.cost) }
    requires native { IsTrue (supports_native table.now) }
    ensures value { result ≡ costing edge cost table.now }
    ensures costs { IsTrue (list_all is_edge_cost result.cost) }
    ensures native { IsTrue (supports_native result) }
{
    let mut changed = *table;
    changed.cost[edge as usize] = cost.get();
    changed
}

pub(crate) fn switched(family: Family, value: bool, table: &Table) -> Table
    requires costs { IsTrue (list_all is_edge_cost table.now.cost) }
    requires native { IsTrue (supports_native table.now) }
    ensures value { result ≡ switched family value table.now }
    ensures costs { IsTrue (list_all is_edge_cost result.cost) }
    ensures native { IsTrue (supports_native result) }
{
    let mut changed = *table;
    changed.on[family as usize] = value;
    changed
}
