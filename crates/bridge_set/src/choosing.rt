//! The choices by a table and the families of the bridges.
ghost use Rattle.std.specs.Prelude.{◌≡◌, ◌<◌, ℕ, false, IsTrue, length, map, slice_index_or};
ghost use Rattle.std.specs.List.{list_all};
ghost use Rattle.bridge_graph.specs.Hypergraph.{hypergraph_of, is_edge_cost};
ghost use Rattle.bridge_graph.specs.declared.Choice.TheVariants.{Missing};
ghost use Rattle.item_core.specs.declared.edge.TheConstants.{EDGE_ROWS};
ghost use Rattle.item_core.specs.Kind.{kind_count};
ghost use Rattle.fresh_bridging.specs.TheRules.{IsChoice, edges_on, family_number, graph_of, is_usable};
ghost use Rattle.bridge_set.specs.Bridges.{setting_by};

use crate::places::has_family;
use bridge_face::Bridge;
use bridge_graph::{Choice, Graph};
use item_core::{EDGE_COUNT, EDGE_ROWS, EDGES, EdgeEntry, Family, KIND_COUNT, Table};

// The graph of kinds, with the edges whose family is on and among the bridges.
pub(crate) fn graph_of<B: Bridge>(table: &Table, bridges: &[B]) -> Graph<KIND_COUNT, EDGE_COUNT>
    requires { IsTrue (list_all is_edge_cost table.now.cost) }
    ensures graph { result ≡ graph_of (setting_by table.now (map B.state bridges.now)) }
    ensures kinds { length table.now.supported ≡ kind_count }
{
    graph_by(table, &edges_on(table, bridges))
}

// The graph of kinds, with these edges.
fn graph_by(table: &Table, on: &[bool; EDGE_COUNT]) -> Graph<KIND_COUNT, EDGE_COUNT>
    requires { IsTrue (list_all is_edge_cost table.now.cost) }
    ensures graph { result
        ≡ hypergraph_of EDGE_ROWS table.now.cost table.now.supported on.now }
    ensures kinds { length table.now.supported ≡ kind_count }
{
    Graph::build(&EDGE_ROWS, &table.cost, &table.supported, on)
}

fn edges_on<B: Bridge>(table: &Table, bridges: &[B]) -> [bool; EDGE_COUNT]
    ensures { result ≡ edges_on (setting_by table.now (map B.state bridges.now)) }
{
    let mut on = [false; EDGE_COUNT];
    write_usable(&EDGES, table, bridges, &mut on);
    on
}

// Writes whether each edge's family may be used.
fn write_usable<B: Bridge>(rows: &[EdgeEntry], table: &Table, bridges: &[B], on: &mut [bool])
    requires { length on.old ≡ length rows.now }
    ensures { on.new ≡ map (λ row. is_usable
        (setting_by table.now (map B.state bridges.now)) row.family) rows.now }
{
    for (n, row) in rows.iter().enumerate() {
        on[n] = is_usable(table, bridges, row.family);
    }
}

// Whether a family is on and among the bridges.
fn is_usable<B: Bridge>(table: &Table, bridges: &[B], family: Family) -> bool
    ensures { result ≡ is_usable (setting_by table.now (map B.state bridges.now)) family }
{
    is_on(table, family) && has_family(bridges, family)
}

fn is_on(table: &Table, family: Family) -> bool
    ensures { result ≡ slice_index_or table.now.on (family_number family) false }
{
    table.on[family as usize]
}

// The choice of each kind.
pub(crate) fn choices_of(graph: &Graph<KIND_COUNT, EDGE_COUNT>) -> [Choice; KIND_COUNT]
    ensures each { (kind : ℕ) → kind < kind_count
        → IsChoice graph.now kind (slice_index_or result kind Missing) }
    ensures kinds { length result ≡ kind_count }
{
    let mut choices = [Choice::Missing; KIND_COUNT];
    for n in 0..KIND_COUNT {
        choices[n] = choice_at(graph, n as u8);
    }
    choices
}

fn choice_at(graph: &Graph<KIND_COUNT, EDGE_COUNT>, kind: u8) -> Choice
    ensures { IsChoice graph.now kind result }
{
    graph.choice(kind)
}
