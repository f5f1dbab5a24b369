// Takes an item through each edge, by a list of bridges of all families: prints the item, its
// image, what is carried back of duals, and what altering it and letting it go give. Then come a
// row of two numbers in `Reals`, and two images that differ in whether a sum fits.
#![tactic(auto)]

mod constants;
mod duals;
mod edges;
mod round;
mod samples;
mod shown;

use std::process::ExitCode;
use test_support::Page;

fn main(rt: HostRuntime) -> ExitCode {
    let mut page = Page::new(&rt);
    edges::all(&mut page);
    constants::reals(&mut page);
    constants::greatest(&mut page);
    page.status()
}
