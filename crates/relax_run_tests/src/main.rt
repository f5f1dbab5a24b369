// Runs the command of the relaxation over the cases of standard input, and prints how each ends and what it
// writes. The language of the cases is that of `command_tests`.
#![tactic(auto)]

use any_bridge::AnyBridge;
use command_tests::{TestedCommand, run_cases};
use file_command::Status;
use io_face::{MemShelf, MemSink};
use relax_command::run;
use std::alloc::Global;
use std::io;

struct Relaxation;

impl TestedCommand for Relaxation {
    fn run(
        alloc: Global,
        words: &[String],
        shelf: &mut MemShelf,
        output: &mut MemSink,
        bridges: Vec<AnyBridge>,
    ) -> Status {
        run(alloc, words, shelf, output, bridges)
    }
}

fn main(rt: HostRuntime) -> io::Result<()> {
    run_cases::<Relaxation>(&rt, "m.json")
}
