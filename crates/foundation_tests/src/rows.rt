// Leaf rows.
use address_map::AddressMap;
use aff_core::{Address, Root};
use test_support::Page;

/// Makes room for three rows, puts them and drops the last.
pub fn show(page: &mut Page, map: &mut AddressMap) {
    let room = map.reserve(0, 3);
    page.line(format_args!("room for rows: {room:?}"));
    put(page, map, 0, 0);
    put(page, map, 1, 1);
    put(page, map, 2, 5);
    find(page, map);
    let dropped = map.drop_row(&Address::root(Root::Row, 2));
    page.line(format_args!("dropped {dropped:?}"));
    find(page, map);
}

// Puts a row where neither its address nor its index is there.
fn put(page: &mut Page, map: &mut AddressMap, number: u32, i: usize) {
    let at = Address::root(Root::Row, number);
    if map.row_index(&at).is_none() && map.row_at(i).is_none() {
        let put = map.put_row(at, i);
        page.line(format_args!("put {at} under {i}: {put:?}"));
    }
}

fn find(page: &mut Page, map: &AddressMap) {
    let at = Address::root(Root::Row, 2);
    let (index, address) = (map.row_index(&at), map.row_at(5));
    page.line(format_args!("{at} is under {index:?}, and 5 is of {address:?}"));
    page.line(format_args!("{} rows", map.row_count()));
    for entry in map.rows() {
        page.line(format_args!("{} under {}", entry.0, entry.1));
    }
}
