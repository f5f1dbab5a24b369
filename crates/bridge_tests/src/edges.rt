// The edges of all families.
use crate::round::pass;
use any_bridge::all_bridges;
use bridge_face::Bridge;
use item_core::{EDGES, Edge, EdgeEntry};
use test_support::Page;

/// Takes an item through each edge, the edges of one family after those of another.
pub fn all(page: &mut Page) {
    match all_bridges(page.alloc()) {
        Ok(mut bridges) => each(page, &mut bridges),
        Err(fault) => page.line(fault),
    }
}

// Takes an item through each edge of the bridges' families.
fn each<B: Bridge>(page: &mut Page, bridges: &mut [B]) {
    for bridge in bridges {
        own_edges(page, &EDGES, bridge);
    }
}

// Takes an item through each of these edges that is of the bridge's family.
fn own_edges<B: Bridge>(page: &mut Page, rows: &[EdgeEntry], bridge: &mut B) {
    for row in rows {
        own_edge(page, bridge, row.edge);
    }
}

fn own_edge<B: Bridge>(page: &mut Page, bridge: &mut B, edge: Edge) {
    let own = bridge.family();
    if edge.entry().family == own {
        pass(page, bridge, edge);
    }
}
