// Runs commands over files, a source and a sink in memory, one case after another, and prints how
// each ends, by its exit status, and what it writes.
//
//     case NAME              begins a case, with no words, no files and an empty script
//     words WORD ..          its words
//     model, certificate, script
//                            what stands in `m.json`, in `c.txt` and in the script: the lines below
//                            that begin with `|`, or with `>` where no newline ends them
//     piece N                a read gives and a write takes N bytes at most, and not 4,096
//     failing read N         the read of this number fails, or the write, or the fetch
//     full                   each write runs out of memory
//     boxed                  boxes with a bridge of `GreaterLess`, a second one of it, and one of
//                            `NonposVar`, in place of a bridge of each family
//     left                   has printed what the session is left with: whether a solver is
//                            attached, and the model as a file's text
//     rows FIRST N TERMS     the script has N lines more, `row R >= 0 : TERMS` with R from rFIRST on
//     sets FIRST N BOUND     the script has N lines more, `set R >= BOUND` with R from rFIRST on
//     last LINE              the script's lines and then this one are made by a session, and what
//                            this one does to the solver's model is printed, with the turns of the
//                            bridges that it takes
//     run                    runs the case
#![tactic(auto)]

mod case;
mod full;
mod last;
mod reading;
mod running;

use case::Case;
use std::io;
use test_support::Stop;

fn main(rt: HostRuntime) -> io::Result<()> {
    let mut case = Case::new(rt.alloc());
    let ran = run(&rt, &mut case);
    drop(case);
    match ran {
        Ok(()) => Ok(()),
        Err(Stop) => println!(rt; "stopped"),
    }
}

fn run(rt: &HostRuntime, case: &mut Case) -> Result<(), Stop> {
    for line in rt.lines(rt.alloc()) {
        let line = line?;
        reading::step(rt, case, line.as_str())?;
    }
    Ok(())
}
