// Solves forms over a source and a sink in memory, one case after another, and prints how each
// ends, by its exit status, and what it writes.
//
//     case NAME              begins a case, with no words and an empty input
//     words WORD ..          its words
//     |LINE                  a line of the input; `>` in place of `|` where no newline ends it
//     zeros N                N bytes of the input, each the digit 0
//     piece N                a read gives and a write takes N bytes at most, and not 4,096
//     failing read N         the read of this number fails, or the write
//     run                    runs the case
#![tactic(auto)]

mod case;
mod reading;
mod running;

use case::Case;
use std::io;
use test_support::Stop;

fn main(rt: HostRuntime) -> io::Result<()> {
    let mut case = Case::new(rt.alloc());
    match run(&rt, &mut case) {
        Ok(()) => Ok(()),
        Err(Stop) => println!(rt; "stopped"),
    }
}

fn run(rt: &HostRuntime, case: &mut Case) -> Result<(), Stop> {
    for line in rt.lines(rt.alloc()) {
        let line = line?;
        reading::step(rt, case, line.as_str())?;
    }
    Ok(())
}
