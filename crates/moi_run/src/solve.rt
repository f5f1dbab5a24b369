//! The lines by which the model of a file is solved.
ghost use Rattle.std.specs.Prelude.{◌≡◌, ◌≢◌, IfOk, false};
ghost use Rattle.edit_engine.specs.Held.{state_of};
ghost use Rattle.io_face.specs.Fault.{HasFaulted};
ghost use Rattle.io_face.specs.Sink.{Adds, AddsPrefix};
ghost use Rattle.io_face.specs.Told.{told_by};
ghost use Rattle.moi_run.specs.Commands.{load_line, solve_lines};
ghost use Rattle.moi_run.specs.Run.{FetchFails, RunsEach};
ghost use Rattle.moi_run.specs.RunState.{run_state_of};
ghost use Rattle.moi_run.specs.Status.{IsEnded};

use crate::answers::answer_with;
use crate::status::Status;
use bridge_face::Bridge;
use command_words::Setup;
use edit_engine::Session;
use io_face::{Shelf, Sink};
use lists::Memory;
use name_index::Name;
use std::alloc::Global;

/// Tells the session the options, and then answers the lines that load the model of a file, attach
/// a solver and optimise.
pub(crate) fn answer_solve<B: Bridge, H: Shelf, O: Sink>(
    alloc: Global,
    setup: Setup,
    model: &Name,
    shelf: &mut H,
    output: &mut O,
    session: &mut Session<B>,
) -> Status
    requires detached { (state_of session.old).attached ≡ false }
    ensures runs { let told = told_by (H.files shelf.old) (H.sure shelf.old) in
        let before = run_state_of session.old told (H.asked shelf.old) in
        let after = run_state_of session.new told (H.asked shelf.new) in
        RunsEach (solve_lines model.now) setup result before
        after (Adds (O.written output.old) (O.written output.new))
        (AddsPrefix (O.written output.old) (O.written output.new)) }
    ensures read_fault { result ≡ Status.ReadFault
        → FetchFails (told_by (H.files shelf.old) (H.sure shelf.old)) (H.faults shelf.old)
        (H.faults shelf.new) }
    ensures write_fault { result ≡ Status.WriteFault
        → HasFaulted (O.faults output.old) (O.faults output.new) }
    ensures sound_fetches { IsEnded result → H.faults shelf.new ≡ H.faults shelf.old }
    ensures sound_writes { IsEnded result → O.faults output.new ≡ O.faults output.old }
    ensures not_usage { result ≢ Status.Usage }
{
    match load_line(alloc, model) {
        Ok(load) => {
            let lines: [&[u8]; 3] = [&load, b"attach", b"optimize"];
            answer_with(setup, &lines, shelf, output, session)
        }
        Err(_) => Status::Memory,
    }
}

// The line that loads a file.
fn load_line(alloc: Global, name: &Name) -> Result<Vec<u8>, Memory>
    ensures { IfOk result (λ line. line.items ≡ load_line name.now) }
{
    let token = name.escape()?;
    let mut line = Vec::from_slice(alloc, b"load ")?;
    line.extend_from_slice(token.as_slice())?;
    Ok(line)
}
