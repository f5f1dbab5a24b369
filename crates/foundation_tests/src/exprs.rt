// Expressions of variables.
use address_map::AddressMap;
use aff_core::{Address, Aff, Root};
use test_support::Page;

/// Puts the expression of a variable that stands for itself, and drops it.
pub fn show(page: &mut Page, map: &mut AddressMap) {
    let at = Address::root(Root::Variable, 3);
    if let Ok(itself) = Aff::variable(page.alloc(), &at) {
        let before = map.put_expr(at, itself);
        page.line(format_args!("before: {before:?}"));
    }
    find(page, map, &at);
    let is_dropped = map.drop_expr(&at).is_some();
    page.line(format_args!("dropped: {is_dropped}"));
    find(page, map, &at);
}

fn find(page: &mut Page, map: &AddressMap, at: &Address) {
    match map.expr(at) {
        Some(f) => page.line(format_args!("{at} has {} times itself", f.coef(at))),
        None => page.line(format_args!("{at} has no expression")),
    }
}
