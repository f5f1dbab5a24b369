// Affine functions over addresses, made, read and changed.
use aff_core::{Address, Aff, Root, rise_strictly};
use lists::{Duplicate, Memory};
use ratio_core::Ratio;
use test_support::Page;

fn x() -> Address {
    Address::root(Root::Variable, 0)
}

/// A function made by each call, and changes of the function that is the variable y.
pub fn show(page: &mut Page) {
    page.line("# affine functions");
    let terms = [(0u8, Ratio::one()), (1, Ratio::zero())];
    page.line(format_args!("terms of 0 and 1 rise {}", rise_strictly(&terms)));
    make(page, x());
    if let Ok(f) = Aff::variable(page.alloc(), &Address::root(Root::Variable, 1)) {
        change(page, &f);
    }
}

fn make(page: &mut Page, x: Address) {
    let (zero, one) = (Ratio::zero(), Ratio::one());
    show_made(
        page,
        "gathered",
        Aff::gather(page.alloc(), &[(x, one)], zero),
    );
    show_made(
        page,
        "of a zero",
        Aff::from_terms(page.alloc(), &[(x, zero)], one),
    );
    show_function(page, "one", &Aff::constant_function(page.alloc(), one));
}

fn change(page: &mut Page, y: &Aff) {
    show_made(page, "copied", y.copy());
    show_made(page, "negated", y.neg());
    show_made(page, "with a constant", y.with_constant(Ratio::one()));
    show_made(page, "with x", y.with_coef(&x(), Ratio::one()));
    compare(page, y);
}

fn compare(page: &mut Page, y: &Aff) {
    if let Ok(copy) = y.copy() {
        page.line(format_args!("the copy is equal: {}", copy == *y));
    }
}

fn show_made(page: &mut Page, what: &str, made: Result<Aff, Memory>) {
    match made {
        Ok(f) => show_function(page, what, &f),
        Err(fault) => page.line(format_args!("{what}: {fault:?}")),
    }
}

fn show_function(page: &mut Page, what: &str, f: &Aff) {
    let (count, first) = (f.term_count(), f.term(0));
    page.line(format_args!("{what}: terms {count}, first {first:?}"));
    let (terms, constant) = (f.terms(), f.constant());
    page.line(format_args!("    {terms:?}, constant {constant}"));
    let (is_mentioned, coefficient) = (f.mentions(&x()), f.coef(&x()));
    page.line(format_args!("    x mentioned {is_mentioned}, times {coefficient}"));
}
