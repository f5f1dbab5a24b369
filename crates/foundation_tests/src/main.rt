// Calls what all crates stand on, and prints what is answered, a heading before each subject.
#![tactic(auto)]

mod addresses;
mod affine;
mod arithmetic;
mod calls;
mod exprs;
mod fractions;
mod leaves;
mod literals;
mod loads;
mod mentions;
mod named;
mod names;
mod numerals;
mod orders;
mod plans;
mod rows;
mod sequences;
mod sets;
mod shelves;
mod sinks;
mod sources;
mod tables;
mod variables;

use std::process::ExitCode;
use test_support::Page;

fn main(rt: HostRuntime) -> ExitCode {
    let mut page = Page::new(&rt);
    show_values(&rt, &mut page);
    show_functions(&mut page);
    page.status()
}

fn show_values(rt: &HostRuntime, page: &mut Page) {
    fractions::show(page);
    numerals::show(page);
    sequences::show(page);
    loads::show(page);
    sources::show(page);
    sinks::show(page);
    shelves::show(rt, page);
    sets::show(page);
}

fn show_functions(page: &mut Page) {
    names::show(page);
    named::show(page);
    addresses::show(page);
    affine::show(page);
    arithmetic::show(page);
    leaves::show(page);
    tables::show(page);
    plans::show(page);
}
