// Calls the parts of the solver, and prints what is answered, a heading before each subject. The
// answers in `stdout` were worked out by hand, or are those that the forms are known for.
#![tactic(auto)]

mod answers;
mod boards;
mod forms;
mod models;
mod store;
mod tables;

use std::process::ExitCode;
use test_support::Page;

fn main(rt: HostRuntime) -> ExitCode {
    let mut page = Page::new(&rt);
    boards::show(&mut page);
    forms::show(&mut page);
    store::show(&mut page);
    tables::show(&mut page);
    page.status()
}
