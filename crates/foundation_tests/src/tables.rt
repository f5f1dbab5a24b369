// The tables in words.
use item_core::{Children, EDGES, Edge, EdgeEntry, KINDS, Kind};
use test_support::Page;

/// The edges and the kinds, each on a line.
pub fn show(page: &mut Page) {
    page.line("# edges and kinds");
    show_edges(page, &EDGES);
    show_kinds(page, &KINDS.kinds);
}

fn show_edges(page: &mut Page, entries: &[EdgeEntry]) {
    for entry in entries {
        let number = number(entry.edge);
        page.word(format_args!("{number} {:?} {} to", entry.family, entry.source));
        show_children(page, &entry.children);
    }
}

// Edges are counted from 1.
fn number(edge: Edge) -> usize {
    edge as usize + 1
}

fn show_children(page: &mut Page, children: &Children) {
    match children {
        Children::None => page.line(""),
        Children::One(first) => page.line(format_args!(" {first}")),
        Children::Two(first, second) => page.line(format_args!(" {first} {second}")),
        Children::Three(first, second, third) => {
            page.line(format_args!(" {first} {second} {third}"));
        }
    }
}

fn show_kinds(page: &mut Page, kinds: &[Kind]) {
    for kind in kinds {
        let native = if kind.is_native() { " native" } else { "" };
        page.line(format_args!("{kind}{native}"));
    }
}
