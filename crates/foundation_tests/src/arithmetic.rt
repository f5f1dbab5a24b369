// Sums, multiples, values and substitutions of the function that is the variable x.
use aff_core::{Address, Aff, Exprs, Point, Root};
use ratio_core::{NumberFault, Ratio};
use test_support::Page;

fn x() -> Address {
    Address::root(Root::Variable, 0)
}

/// What x is less itself, times -1, where it is 1, and with 1 in its place, and a multiple that
/// doesn't fit.
pub fn show(page: &mut Page) {
    page.line("# arithmetic of affine functions");
    if let Ok(f) = Aff::variable(page.alloc(), &x()) {
        subtract(page, &f);
        show_made(page, "times -1", f.scale(&Ratio::one().neg()));
        place(page, &f);
        substitute(page, &f);
    }
    if let Ok(great) = Ratio::new(1 << 100, 1) {
        let f = Aff::constant_function(page.alloc(), great);
        show_made(page, "2^100 times 2^100", f.scale(&great));
    }
}

fn show_made(page: &mut Page, what: &str, made: Result<Aff, NumberFault>) {
    match made {
        Ok(f) => show_function(page, what, &f),
        Err(fault) => page.line(format_args!("{what}: {fault:?}")),
    }
}

fn show_function(page: &mut Page, what: &str, f: &Aff) {
    page.line(format_args!("{what}: {:?}, constant {}", f.terms(), f.constant()));
}

fn subtract(page: &mut Page, f: &Aff) {
    if let Ok(minus) = f.neg() {
        show_made(page, "less itself", f.add(&minus));
    }
}

fn place(page: &mut Page, f: &Aff) {
    let mut point = Point::new(page.alloc());
    let is_put = point.put(x(), Ratio::one()).is_ok();
    page.line(format_args!("put {is_put}, at x {:?}", point.get(&x())));
    show_value(page, f, &point);
}

fn show_value(page: &mut Page, f: &Aff, point: &Point) {
    if point.has_each(f) {
        page.line(format_args!("value {:?}", f.value(point)));
    }
}

fn substitute(page: &mut Page, f: &Aff) {
    let mut exprs = Exprs::new(page.alloc());
    let one = Aff::constant_function(page.alloc(), Ratio::one());
    let is_put = exprs.put(x(), one).is_ok();
    page.line(format_args!("put {is_put}"));
    show_substituted(page, f, &exprs);
}

fn show_substituted(page: &mut Page, f: &Aff, exprs: &Exprs) {
    if exprs.has_each(f) {
        show_made(page, "with 1 in its place", f.substitute(exprs));
    }
}
