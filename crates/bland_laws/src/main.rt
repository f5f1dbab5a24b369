//! Reads a form of equations, solves it by Bland's rule and prints the answer.
#![tactic(auto)]

use bland_run::{Status, run};
use io_face::{StdIn, StdOut};
use std::env;
use std::io::ErrorKind;
use std::process::ExitCode;
use std::rt::Env;

fn main(rt: HostRuntime) -> ExitCode {
    let status = match arguments(&rt) {
        Ok(words) => run_on(&rt, &words),
        Err(status) => status,
    };
    ExitCode::from(status.number())
}

fn run_on(rt: &HostRuntime, words: &[String]) -> Status {
    let mut input = StdIn::new(rt.stdin());
    let mut output = StdOut::new(rt.stdout());
    run(rt.alloc(), words, &mut input, &mut output)
}

/// The words after the program's name. The program takes none, so words that are no text are too
/// many too.
fn arguments<R: Env + AllocGlobal>(rt: &R) -> Result<Vec<String>, Status> {
    match env::args(rt) {
        Ok(words) => words
            .skip(1)
            .collect(rt.alloc())
            .map_err(|_| Status::Memory),
        Err(error) if error.kind() == ErrorKind::OutOfMemory => Err(Status::Memory),
        Err(_) => Err(Status::Usage),
    }
}
