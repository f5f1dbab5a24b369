// The map between addresses of leaves and indices, with the expressions of variables.
use crate::{exprs, mentions, rows, variables};
use address_map::AddressMap;
use test_support::Page;

/// Puts into one map, finds there and drops.
pub fn show(page: &mut Page) {
    page.line("# leaves");
    let mut map = AddressMap::new(page.alloc());
    variables::show(page, &mut map);
    rows::show(page, &mut map);
    exprs::show(page, &mut map);
    mentions::show(page, &mut map);
}
