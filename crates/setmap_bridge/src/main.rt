//! Solves a model some of whose rows are in cones seen through invertible matrices.
#![tactic(auto)]

use any_bridge::all_bridges;
use file_command::{Status, arguments};
use io_face::{Files, StdOut};
use setmap_command::run;
use std::process::ExitCode;

fn main(rt: HostRuntime) -> ExitCode {
    let status = match arguments(&rt) {
        Ok(words) => run_words(&rt, &words),
        Err(status) => status,
    };
    ExitCode::from(status.number())
}

/// Runs the arguments with a bridge of each family.
fn run_words(rt: &HostRuntime, words: &[String]) -> Status {
    match all_bridges(rt.alloc()) {
        Ok(bridges) => {
            let mut shelf = Files::new(rt);
            let mut output = StdOut::new(rt.stdout());
            run(rt.alloc(), words, &mut shelf, &mut output, bridges)
        }
        Err(_) => Status::Memory,
    }
}
