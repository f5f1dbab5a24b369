// Runs the command of the dual over the cases of standard input, and prints how each ends and what it
// writes. The language of the cases is that of `command_tests`.
#![tactic(auto)]

use any_bridge::AnyBridge;
use command_tests::{TestedCommand, run_cases};
use dual_command::run;
use file_command::Status;
use io_face::{MemShelf, MemSink};
use std::alloc::Global;
use std::io;

struct Dual;

impl TestedCommand for Dual {
    fn run(
        alloc: Global,
        words: &[String],
        shelf: &mut MemShelf,
        output: &mut MemSink,
        bridges: Vec<AnyBridge>,
    ) -> Status {
        run(alloc, words, shelf, output, bridges)
    }
}

fn main(rt: HostRuntime) -> io::Result<()> {
    run_cases::<Dual>(&rt, "solve m.json")
}
