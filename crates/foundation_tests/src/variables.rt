// Leaf variables, which are kept in the order of their addresses.
use address_map::AddressMap;
use aff_core::{Address, Root};
use test_support::Page;

/// Puts three variables, drops one, and clears the map.
pub fn show(page: &mut Page, map: &mut AddressMap) {
    put(page, map, 1, 0);
    put(page, map, 4, 7);
    put(page, map, 0, 1);
    find(page, map, 4, 7);
    list(page, map);
    let dropped = map.drop_var(&Address::root(Root::Variable, 0));
    page.line(format_args!("dropped {dropped:?}"));
    list(page, map);
    map.clear();
    find(page, map, 1, 0);
    list(page, map);
}

// Puts a variable where neither its address nor its index is there.
fn put(page: &mut Page, map: &mut AddressMap, number: u32, i: usize) {
    let at = Address::root(Root::Variable, number);
    if map.var_index(&at).is_none() && map.var_at(i).is_none() {
        let put = map.put_var(at, i);
        page.line(format_args!("put {at} under {i}: {put:?}"));
    }
}

fn find(page: &mut Page, map: &AddressMap, number: u32, i: usize) {
    let at = Address::root(Root::Variable, number);
    let (index, address) = (map.var_index(&at), map.var_at(i));
    page.line(format_args!("{at} is under {index:?}, and {i} is of {address:?}"));
}

fn list(page: &mut Page, map: &AddressMap) {
    page.line(format_args!("{} variables", map.var_count()));
    for entry in map.vars() {
        page.line(format_args!("{} under {}", entry.0, entry.1));
    }
}
