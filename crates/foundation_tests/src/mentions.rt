// Which items mention a variable, which variables are kept, and the leaves of an item.
use address_map::AddressMap;
use aff_core::{Address, Root};
use test_support::Page;

/// Notes mentions and takes them away, marks a variable as kept, and finds the leaves of an item.
pub fn show(page: &mut Page, map: &mut AddressMap) {
    note(page, map, 0, 7);
    note(page, map, 0, 3);
    note(page, map, 1, 7);
    list(page, map, 0);
    unnote(page, map, 0, 7);
    unnote(page, map, 0, 7);
    list(page, map, 0);
    list(page, map, 1);
    map.clear_notes();
    list(page, map, 1);
    mark(page, map);
    find_leaves(page, map);
    map.clear_exprs();
    map.clear_kept();
}

// Notes that a row mentions a variable, where that isn't noted.
fn note(page: &mut Page, map: &mut AddressMap, variable: u32, row: u32) {
    let var = Address::root(Root::Variable, variable);
    let item = Address::root(Root::Row, row);
    if !map.is_noted(&var, &item) {
        let noted = map.note(var, item);
        page.line(format_args!("{var} in {item}: {noted:?}"));
    }
}

fn unnote(page: &mut Page, map: &mut AddressMap, variable: u32, row: u32) {
    let var = Address::root(Root::Variable, variable);
    let item = Address::root(Root::Row, row);
    let was_there = map.unnote(&var, &item);
    page.line(format_args!("{var} no more in {item}: {was_there}"));
}

fn list(page: &mut Page, map: &AddressMap, variable: u32) {
    let var = Address::root(Root::Variable, variable);
    match map.noted(&var) {
        None => page.line(format_args!("{var} in no row")),
        Some(items) => {
            page.line(format_args!("{var} in {} rows", items.len()));
            for item in items.iter() {
                page.line(format_args!("{var} in {}", item.0));
            }
        }
    }
}

// Marks a variable as kept, and takes the mark away.
fn mark(page: &mut Page, map: &mut AddressMap) {
    let var = Address::root(Root::Variable, 2);
    if !map.is_kept(&var) {
        let marked = map.mark_kept(var);
        page.line(format_args!("{var} marked: {marked:?}"));
    }
    let (is_kept, was_kept) = (map.is_kept(&var), map.unmark_kept(&var));
    page.line(format_args!("{var} kept: {is_kept}, {was_kept}, {}", map.is_kept(&var)));
}

// Rows 0 and 1 stand in the map.
fn find_leaves(page: &mut Page, map: &AddressMap) {
    let (row, variable) = (
        Address::root(Root::Row, 1),
        Address::root(Root::Variable, 1),
    );
    for leaf in map.rows_of(&row) {
        page.line(format_args!("of {row}: {} under {}", leaf.0, leaf.1));
    }
    for leaf in map.vars_of(&variable) {
        page.line(format_args!("of {variable}: {}", leaf.0));
    }
}
