//! Lines that are answered one after another.
ghost use Rattle.std.specs.Prelude.{◌≡◌, ◌≢◌, ◌≤◌, All, IsErrOf, OnOk, false, map};
ghost use Rattle.edit_engine.specs.Held.{state_of};
ghost use Rattle.edit_engine.specs.Lines.{says_load};
ghost use Rattle.io_face.specs.Fault.{HasFaulted};
ghost use Rattle.io_face.specs.Sink.{Adds, AddsPrefix};
ghost use Rattle.io_face.specs.Told.{told_by};
ghost use Rattle.moi_run.specs.Answering.{BeginsAnswers, HearsBy};
ghost use Rattle.moi_run.specs.Run.{EachOutcome, FetchFails, RunsEach};
ghost use Rattle.moi_run.specs.RunState.{run_state_of};
ghost use Rattle.moi_run.specs.Status.{IsEnded};

use crate::reply::{Reply, write_answer};
use crate::status::Status;
use crate::stop::RunStop;
use bridge_face::Bridge;
use command_words::Setup;
use edit_engine::Session;
use io_face::{Shelf, Sink};

/// Answers one line, and writes what is printed.
pub(crate) fn answer_line<B: Bridge, H: Shelf, O: Sink>(
    session: &mut Session<B>,
    line: &[u8],
    shelf: &mut H,
    output: &mut O,
) -> Result<Reply, RunStop>
    ensures heard { let told = told_by (H.files shelf.old) (H.sure shelf.old) in
        let before = run_state_of session.old told (H.asked shelf.old) in
        let after = run_state_of session.new told (H.asked shelf.new) in
        HearsBy result before line.now after
        (O.written output.old) (O.written output.new) }
    ensures pivots { session.new.pivots ≡ session.old.pivots }
    ensures files { H.files shelf.new ≡ H.files shelf.old }
    ensures sure { H.sure shelf.new ≡ H.sure shelf.old }
    ensures fetches { H.faults shelf.old ≤ H.faults shelf.new }
    ensures writes { O.faults output.old ≤ O.faults output.new }
    ensures read_fault { IsErrOf result RunStop.ReadFault
        → FetchFails (told_by (H.files shelf.old) (H.sure shelf.old)) (H.faults shelf.old)
        (H.faults shelf.new) }
    ensures unasked { says_load line.now ≡ false → shelf.new ≡ shelf.old }
    ensures sound_fetches { OnOk result (H.faults shelf.new ≡ H.faults shelf.old) }
    ensures sound_writes { OnOk result (O.faults output.new ≡ O.faults output.old) }
    ensures write_fault { IsErrOf result RunStop.WriteFault
        → HasFaulted (O.faults output.old) (O.faults output.new) }
{
    let answer = session.line(line, shelf);
    write_answer(answer, output)
}

/// Tells the session the options, and then answers each of these lines.
pub(crate) fn answer_with<B: Bridge, H: Shelf, O: Sink>(
    setup: Setup,
    lines: &[&[u8]],
    shelf: &mut H,
    output: &mut O,
    session: &mut Session<B>,
) -> Status
    requires detached { (state_of session.old).attached ≡ false }
    ensures runs { let told = told_by (H.files shelf.old) (H.sure shelf.old) in
        let before = run_state_of session.old told (H.asked shelf.old) in
        let after = run_state_of session.new told (H.asked shelf.new) in
        RunsEach (map (λ line. line.now) lines.now) setup result before
        after (Adds (O.written output.old) (O.written output.new))
        (AddsPrefix (O.written output.old) (O.written output.new)) }
    ensures unasked { All (λ line. says_load line.now ≡ false) lines.now
        → shelf.new ≡ shelf.old }
    ensures read_fault { result ≡ Status.ReadFault
        → FetchFails (told_by (H.files shelf.old) (H.sure shelf.old)) (H.faults shelf.old)
        (H.faults shelf.new) }
    ensures write_fault { result ≡ Status.WriteFault
        → HasFaulted (O.faults output.old) (O.faults output.new) }
    ensures sound_fetches { IsEnded result → H.faults shelf.new ≡ H.faults shelf.old }
    ensures sound_writes { IsEnded result → O.faults output.new ≡ O.faults output.old }
    ensures not_usage { result ≢ Status.Usage }
{
    match session.set_up(setup.target, setup.pivots) {
        Ok(()) => answer_each(lines, shelf, output, session),
        Err(_) => Status::Memory,
    }
}

// Answers each of these lines.
fn answer_each<B: Bridge, H: Shelf, O: Sink>(
    lines: &[&[u8]],
    shelf: &mut H,
    output: &mut O,
    session: &mut Session<B>,
) -> Status
    ensures outcome { let told = told_by (H.files shelf.old) (H.sure shelf.old) in
        let before = run_state_of session.old told (H.asked shelf.old) in
        let after = run_state_of session.new told (H.asked shelf.new) in
        EachOutcome result (map (λ line. line.now) lines.now) before
        after (Adds (O.written output.old) (O.written output.new)) }
    ensures prefix { let told = told_by (H.files shelf.old) (H.sure shelf.old) in
        let before = run_state_of session.old told (H.asked shelf.old) in
        let after = run_state_of session.new told (H.asked shelf.new) in
        BeginsAnswers before (map (λ line. line.now) lines.now) result
        after
        (AddsPrefix (O.written output.old) (O.written output.new)) }
    ensures pivots { session.new.pivots ≡ session.old.pivots }
    ensures unasked { All (λ line. says_load line.now ≡ false) lines.now
        → shelf.new ≡ shelf.old }
    ensures read_fault { result ≡ Status.ReadFault
        → FetchFails (told_by (H.files shelf.old) (H.sure shelf.old)) (H.faults shelf.old)
        (H.faults shelf.new) }
    ensures write_fault { result ≡ Status.WriteFault
        → HasFaulted (O.faults output.old) (O.faults output.new) }
    ensures sound_fetches { IsEnded result → H.faults shelf.new ≡ H.faults shelf.old }
    ensures sound_writes { IsEnded result → O.faults output.new ≡ O.faults output.old }
    ensures not_usage { result ≢ Status.Usage }
{
    let mut any_refused = false;
    for line in lines {
        match answer_line(session, line, shelf, output) {
            Ok(reply) => any_refused |= reply.is_refused(),
            Err(stop) => return Status::from(stop),
        }
    }
    Status::ended(any_refused)
}
