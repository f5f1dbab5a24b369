// What bridging costs: the graph of 35 kinds and 63 edges, on five choices of supported kinds, and
// graphs in which edges lead back.
ghost use Rattle.std.specs.Prelude.{IsTrue};
ghost use Rattle.std.specs.List.{list_all};
ghost use Rattle.bridge_graph.specs.Hypergraph.{is_edge_cost};

use bridge_graph::{Choice, EdgeRow, Graph};
use item_core::{EDGE_COUNT, EDGE_ROWS, KIND_COUNT, Table, Target};
use test_support::Page;

// Each edge costs 1, but for the sixth.
const DEARER_COSTS: [u32; EDGE_COUNT] = [
    1, 1, 1, 1, 1, 5, 1, 1, 1, 1, 1, 1, 1, 1, 1, 1, 1, 1, 1, 1, 1, 1, 1, 1, 1, 1, 1, 1, 1, 1, 1, 1,
    1, 1, 1, 1, 1, 1, 1, 1, 1, 1, 1, 1, 1, 1, 1, 1, 1, 1, 1, 1, 1, 1, 1, 1, 1, 1, 1, 1, 1, 1, 1,
];

const CYCLE: [EdgeRow; 3] = [
    EdgeRow {
        source: 0,
        children: [1, 0, 0],
        count: 1,
    },
    EdgeRow {
        source: 1,
        children: [0, 0, 0],
        count: 1,
    },
    EdgeRow {
        source: 0,
        children: [2, 0, 0],
        count: 1,
    },
];

/// The plans of each graph, a line each.
pub fn show(page: &mut Page) {
    page.line("# least-cost plans");
    show_target(page, Target::Standard);
    show_target(page, Target::Rows);
    show_target(page, Target::Cone);
    show_target(page, Target::Less);
    show_target(page, Target::All);
    page.word("Standard, dearer:");
    show_plans(page, &dearer_graph(), 35);
    page.word("cycle with a way out:");
    show_plans(page, &cycle(true), 4);
    page.word("cycle without one:");
    show_plans(page, &cycle(false), 4);
}

fn show_target(page: &mut Page, target: Target) {
    page.word(format_args!("{target:?}:"));
    show_plans(page, &target_graph(target), 35);
}

/// The graph of the table's edges.
fn graph(supported: &[bool; KIND_COUNT], costs: &[u32; EDGE_COUNT]) -> Graph<KIND_COUNT, EDGE_COUNT>
    requires { IsTrue (list_all is_edge_cost costs.now) }
{
    Graph::build(&EDGE_ROWS, costs, supported, &[true; EDGE_COUNT])
}

fn target_graph(target: Target) -> Graph<KIND_COUNT, EDGE_COUNT> {
    let table = Table::target(target);
    graph(&table.supported, &table.cost)
}

fn dearer_graph() -> Graph<KIND_COUNT, EDGE_COUNT> {
    graph(&Table::target(Target::Standard).supported, &DEARER_COSTS)
}

// The last of the edges is on or off.
fn cycle(has_way_out: bool) -> Graph<3, 3> {
    let on = [true, true, has_way_out];
    Graph::build(&CYCLE, &[1; 3], &[false, false, true], &on)
}

/// The choice and the cost of each kind up to a number.
fn show_plans<const K: usize, const E: usize>(page: &mut Page, graph: &Graph<K, E>, kinds: u8) {
    for kind in 0..kinds {
        show_plan(page, graph.choice(kind), graph.cost(kind));
    }
    page.line("");
}

fn show_plan(page: &mut Page, choice: Choice, cost: Option<u128>) {
    match (choice, cost) {
        (Choice::By(edge), Some(cost)) => page.word(format_args!(" {edge}:{cost}")),
        (Choice::Native, Some(0)) => page.word(" native"),
        (Choice::Missing, None) => page.word(" missing"),
        (choice, cost) => page.word(format_args!(" {choice:?} at {cost:?}")),
    }
}
