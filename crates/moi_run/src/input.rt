//! Lines of an input that are answered, up to its end or the line that ends the run.
ghost use Rattle.std.specs.Prelude.{◌≡◌, ◌≢◌, ◌+◌, [], Some, IfSome, false};
ghost use Rattle.std.specs.Str.Lines.{lines};
ghost use Rattle.command_words.specs.declared.words.Invocation.TheVariants.{Run};
ghost use Rattle.edit_engine.specs.Held.{state_of};
ghost use Rattle.edit_engine.specs.Lines.{heard};
ghost use Rattle.io_face.specs.Fault.{HasFaulted};
ghost use Rattle.io_face.specs.Sink.{Adds, AddsPrefix};
ghost use Rattle.io_face.specs.Told.{told_by};
ghost use Rattle.moi_run.specs.Answering.{BeginsAnswers};
ghost use Rattle.moi_run.specs.Run.{FetchFails, HasCause, RunOutcome, Runs};
ghost use Rattle.moi_run.specs.RunState.{run_state_of};
ghost use Rattle.moi_run.specs.Status.{IsEnded};
ghost use Rattle.line_reader.specs.Limits.{input_limit};
ghost use Rattle.io_face.specs.Source.{TakesAtMost};

use crate::answers::answer_line;
use crate::reply::Reply;
use crate::status::Status;
use crate::stop::RunStop;
use bridge_face::Bridge;
use command_words::Setup;
use edit_engine::Session;
use io_face::{Shelf, Sink, Source};
use line_reader::{LineReader, Next};
use std::alloc::Global;

/// Tells the session the options, and then answers the lines of the input.
pub(crate) fn answer_script<B: Bridge, H: Shelf, I: Source, O: Sink>(
    alloc: Global,
    setup: Setup,
    shelf: &mut H,
    input: &mut I,
    output: &mut O,
    session: &mut Session<B>,
) -> Status
    requires detached { (state_of session.old).attached ≡ false }
    ensures runs { let told = told_by (H.files shelf.old) (H.sure shelf.old) in
        let before = run_state_of session.old told (H.asked shelf.old) in
        let after = run_state_of session.new told (H.asked shelf.new) in
        Runs (Some (Run setup)) result (I.left input.old) (I.left input.new) told
        (HasFaulted (I.faults input.old) (I.faults input.new))
        (HasFaulted (H.faults shelf.old) (H.faults shelf.new)) before
        after (Adds (O.written output.old) (O.written output.new))
        (AddsPrefix (O.written output.old) (O.written output.new)) }
    ensures taken { TakesAtMost (input_limit + 1) (I.left input.old) (I.left input.new) }
    ensures write_fault { result ≡ Status.WriteFault
        → HasFaulted (O.faults output.old) (O.faults output.new) }
    ensures sound_reads { IsEnded result → I.faults input.new ≡ I.faults input.old }
    ensures sound_fetches { IsEnded result → H.faults shelf.new ≡ H.faults shelf.old }
    ensures sound_writes { IsEnded result → O.faults output.new ≡ O.faults output.old }
    ensures not_usage { result ≢ Status.Usage }
{
    let Ok(mut reader) = LineReader::new(alloc) else {
        return Status::Memory;
    };
    match session.set_up(setup.target, setup.pivots) {
        Ok(()) => answer_lines(alloc, &mut reader, shelf, input, output, session),
        Err(_) => Status::Memory,
    }
}

// Answers line after line, up to the end of the input or the line that ends the run.
fn answer_lines<B: Bridge, H: Shelf, I: Source, O: Sink>(
    alloc: Global,
    reader: &mut LineReader,
    shelf: &mut H,
    input: &mut I,
    output: &mut O,
    session: &mut Session<B>,
) -> Status
    requires held { reader.old.held ≡ [] }
    requires room { reader.old.room ≡ input_limit }
    ensures outcome { let told = told_by (H.files shelf.old) (H.sure shelf.old) in
        let before = run_state_of session.old told (H.asked shelf.old) in
        let after = run_state_of session.new told (H.asked shelf.new) in
        IfSome (I.left input.old) (λ bytes. RunOutcome
        (HasFaulted (I.faults input.old) (I.faults input.new))
        (FetchFails told (H.faults shelf.old) (H.faults shelf.new)) result bytes
        (I.left input.new) before after
        (Adds (O.written output.old) (O.written output.new))) }
    ensures prefix { let told = told_by (H.files shelf.old) (H.sure shelf.old) in
        let before = run_state_of session.old told (H.asked shelf.old) in
        let after = run_state_of session.new told (H.asked shelf.new) in
        IfSome (I.left input.old) (λ bytes. BeginsAnswers before
        (heard (lines bytes)) result after
        (AddsPrefix (O.written output.old) (O.written output.new))) }
    ensures taken { TakesAtMost (input_limit + 1) (I.left input.old) (I.left input.new) }
    ensures pivots { session.new.pivots ≡ session.old.pivots }
    ensures cause { HasCause (HasFaulted (I.faults input.old) (I.faults input.new))
        (FetchFails (told_by (H.files shelf.old) (H.sure shelf.old)) (H.faults shelf.old)
        (H.faults shelf.new)) (HasFaulted (O.faults output.old) (O.faults output.new)) result }
    ensures sound_reads { IsEnded result → I.faults input.new ≡ I.faults input.old }
    ensures sound_fetches { IsEnded result → H.faults shelf.new ≡ H.faults shelf.old }
    ensures sound_writes { IsEnded result → O.faults output.new ≡ O.faults output.old }
    ensures not_usage { result ≢ Status.Usage }
{
    let mut line = Vec::new(alloc);
    let mut any_refused = false;
    'answering: loop {
        let next = match reader.next_line(input, &mut line) {
            Ok(next) => next,
            Err(reason) => return Status::from(RunStop::from(reason)),
        };
        if let Next::End = next {
            return Status::ended(any_refused);
        }
        let reply = match answer_line(session, &line, shelf, output) {
            Ok(reply) => reply,
            Err(stop) => return Status::from(stop),
        };
        any_refused |= reply.is_refused();
        if let Reply::Quit = reply {
            return Status::ended(any_refused);
        }
        if let Next::LastLine = next {
            return Status::ended(any_refused);
        }
    }
}
