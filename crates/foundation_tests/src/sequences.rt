// Lists.
use lists::{Duplicate, Sequence};
use test_support::Page;

/// A list of 2 and 5: what it has, its copy and its vector.
pub fn show(page: &mut Page) {
    page.line("# lists");
    let mut list = Sequence::new(page.alloc());
    fill(page, &mut list);
    read(page, &list);
    page.line(format_args!("vector {:?}", list.into_vec()));
}

fn fill(page: &mut Page, list: &mut Sequence<u8>) {
    page.word(format_args!("empty {}, ", list.is_empty()));
    let (first, second) = (list.push(2), list.push(5));
    page.word(format_args!("put {}: ", first.is_ok() & second.is_ok()));
}

fn read(page: &mut Page, list: &Sequence<u8>) {
    let (first, second) = (list.get(1), list.get(2));
    page.line(format_args!("{} values, at 1 {first:?}, at 2 {second:?}", list.len()));
    page.word(format_args!("copy {:?}, ", list.copy()));
}
