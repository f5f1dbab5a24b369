//! Reads scripts of edits and files of models, and prints what they are answered.
#![tactic(auto)]

ghost use Rattle.std.specs.Prelude.{◌≡◌, All, IsTrue, false, map};
ghost use Rattle.std.specs.FinMap as finite;
ghost use Rattle.bridge_set.specs.Bridges.{families_of, occur_once};
ghost use Rattle.edit_engine.specs.Held.{state_of};

use any_bridge::all_bridges;
use bridge_face::Bridge;
use edit_engine::Session;
use io_face::{Files, StdIn, StdOut};
use lists::Memory;
use moi_run::{Status, run};
use std::env;
use std::io::ErrorKind;
use std::process::ExitCode;
use std::rt::Env;

fn main(rt: HostRuntime) -> ExitCode {
    let status = match arguments(&rt) {
        Ok(words) => run_words(&rt, &words).unwrap_or(Status::Memory),
        Err(status) => status,
    };
    ExitCode::from(status.number())
}

/// Runs the words on a new session that has a bridge of each family.
fn run_words(rt: &HostRuntime, words: &[String]) -> Result<Status, Memory> {
    let bridges = all_bridges(rt.alloc())?;
    Ok(run_by(rt, words, bridges))
}

// Generic in the bridges, so that how they are freed isn't proved here.
fn run_by<B: Bridge>(rt: &HostRuntime, words: &[String], bridges: Vec<B>) -> Status
    requires once { IsTrue (occur_once (families_of (map B.state bridges.items))) }
    requires kept { All (λ s. s.kept ≡ finite.empty) (map B.state bridges.items) }
{
    let mut session = Session::new(rt.alloc(), bridges);
    let status = run_on(rt, words, &mut session);
    // By name: what falls at the end of a block is freed there field by field, down to each list.
    drop(session);
    status
}

// The session is lent, so that it is freed once, where nothing else is at hand.
fn run_on<B: Bridge>(rt: &HostRuntime, words: &[String], session: &mut Session<B>) -> Status
    requires { (state_of session.old).attached ≡ false }
{
    let mut shelf = Files::new(rt);
    let mut input = StdIn::new(rt.stdin());
    let mut output = StdOut::new(rt.stdout());
    run(
        rt.alloc(),
        words,
        &mut shelf,
        &mut input,
        &mut output,
        session,
    )
}

/// The words after the program's name. Words that are no text are of no command.
fn arguments<R: Env + AllocGlobal>(rt: &R) -> Result<Vec<String>, Status> {
    match env::args(rt) {
        Ok(words) => words
            .skip(1)
            .collect(rt.alloc())
            .map_err(|_| Status::Memory),
        Err(error) if error.kind() == ErrorKind::OutOfMemory => Err(Status::Memory),
        Err(_) => Err(Status::Usage),
    }
}
