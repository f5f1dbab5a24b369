// Addresses and lists of them.
use aff_core::{Address, Addresses, Root, has_address, without_address};
use test_support::Page;

/// What an address is made of, the order of addresses, and a list without one of them.
pub fn show(page: &mut Page) {
    page.line("# addresses");
    let row = Address::root(Root::Row, 7);
    show_parts(page, &row.child(2));
    show_parts(page, &row.child(0).child(3));
    show_order(page, &Address::root(Root::Variable, 9), &row);
    show_order(page, &row, &row.child(3));
    show_order(page, &row.child(3), &row.child(4));
    show_order(page, &row.child(3), &Address::root(Root::Row, 8));
    show_list(page, row);
}

fn show_parts(page: &mut Page, at: &Address) {
    page.word(format_args!("{at}: {:?} {}, ", at.kind(), at.number()));
    page.line(format_args!("depth {} at {:?}", at.depth(), at.positions()));
}

fn show_order(page: &mut Page, first: &Address, second: &Address) {
    page.line(format_args!("{first} < {second}: {}", first < second));
}

fn show_list(page: &mut Page, at: Address) {
    if let Ok(all) = [at].to_vec(page.alloc()) {
        let all = Addresses::from_vec(all);
        page.word(format_args!("in the list {}, ", has_address(&all, &at)));
        page.line(format_args!("without it {:?}", without_address(&all, &at)));
    }
}
