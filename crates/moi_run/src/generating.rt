//! The lines of a generated script, whose answers are summed up.
ghost use Rattle.std.specs.Prelude.{◌≡◌, ◌≢◌, false};
ghost use Rattle.edit_engine.specs.Held.{machine_of, state_of};
ghost use Rattle.io_face.specs.Fault.{HasFaulted};
ghost use Rattle.io_face.specs.Told.{told_by};
ghost use Rattle.moi_run.specs.Commands.{generate_start};
ghost use Rattle.moi_run.specs.Generated.{GenerateOutcome, SummaryOutcome, stop_of_answer};
ghost use Rattle.moi_run.specs.Status.{IsEnded};

use crate::status::Status;
use crate::stop::RunStop;
use bridge_face::Bridge;
use edit_engine::{Answer, Session};
use generated_script::{Recipe, ScriptLines};
use io_face::{Shelf, Sink, write_all};
use item_core::Target;
use run_summary::Tally;
use std::alloc::Global;

/// How many pivots a solve of a generated script may take.
const PIVOTS: u32 = 100_000;

/// Answers the lines of the script, one after another, and writes the summary of the answers. The
/// target is `standard`.
pub(crate) fn answer_generated<B: Bridge, H: Shelf, O: Sink>(
    alloc: Global,
    recipe: Recipe,
    shelf: &mut H,
    output: &mut O,
    session: &mut Session<B>,
) -> Status
    requires detached { (state_of session.old).attached ≡ false }
    ensures outcome { let told = told_by (H.files shelf.old) (H.sure shelf.old) in
        GenerateOutcome result recipe (generate_start (machine_of session.old told))
        (machine_of session.new told) (O.written output.old) (O.written output.new) }
    ensures pivots { IsEnded result → session.new.pivots ≡ 100000 }
    ensures unasked { shelf.new ≡ shelf.old }
    ensures write_fault { result ≡ Status.WriteFault
        → HasFaulted (O.faults output.old) (O.faults output.new) }
    ensures sound_writes { IsEnded result → O.faults output.new ≡ O.faults output.old }
    ensures not_usage { result ≢ Status.Usage }
{
    match session.set_up(Target::Standard, PIVOTS) {
        Ok(()) => sum_up_answers(alloc, recipe, shelf, output, session),
        Err(_) => Status::Memory,
    }
}

fn sum_up_answers<B: Bridge, H: Shelf, O: Sink>(
    alloc: Global,
    recipe: Recipe,
    shelf: &mut H,
    output: &mut O,
    session: &mut Session<B>,
) -> Status
    ensures outcome { let told = told_by (H.files shelf.old) (H.sure shelf.old) in
        GenerateOutcome result recipe (machine_of session.old told) (machine_of session.new told)
        (O.written output.old) (O.written output.new) }
    ensures pivots { session.new.pivots ≡ session.old.pivots }
    ensures unasked { shelf.new ≡ shelf.old }
    ensures write_fault { result ≡ Status.WriteFault
        → HasFaulted (O.faults output.old) (O.faults output.new) }
    ensures sound_writes { IsEnded result → O.faults output.new ≡ O.faults output.old }
    ensures not_usage { result ≢ Status.Usage }
{
    let mut lines = ScriptLines::new(alloc, recipe);
    let mut tally = Tally::new();
    // what it tells the loop: the number of lines is one of 64 bits
    let _count = recipe.line_count();
    'answering: loop {
        let next = match lines.next_line() {
            Ok(next) => next,
            Err(_) => return Status::Memory,
        };
        let line = match next {
            Some(line) => line,
            None => return write_summary(alloc, &tally, output),
        };
        let answer = session.line(line.as_slice(), shelf);
        match stop_of_answer(&answer) {
            Some(stop) => return Status::from(stop),
            None => tally.add(answer),
        }
    }
}

// Why an answer stops the work, if it does.
fn stop_of_answer(answer: &Answer) -> Option<RunStop>
    ensures { result ≡ stop_of_answer answer.now }
{
    match answer {
        Answer::ReadFault => Some(RunStop::ReadFault),
        Answer::TooLong => Some(RunStop::TooLong),
        Answer::Memory => Some(RunStop::Memory),
        Answer::Silent | Answer::Printed(_) | Answer::Refused(_) | Answer::Quit => None,
    }
}

fn write_summary<O: Sink>(alloc: Global, tally: &Tally, output: &mut O) -> Status
    ensures outcome { SummaryOutcome result tally.now (O.written output.old)
        (O.written output.new) }
    ensures write_fault { result ≡ Status.WriteFault
        → HasFaulted (O.faults output.old) (O.faults output.new) }
    ensures sound_writes { IsEnded result → O.faults output.new ≡ O.faults output.old }
    ensures not_usage { result ≢ Status.Usage }
{
    let text = match tally.summary(alloc) {
        Ok(text) => text,
        Err(_) => return Status::Memory,
    };
    match write_all(output, text.as_slice()) {
        Ok(()) => Status::ended(tally.any_refused()),
        Err(fault) => Status::from(RunStop::from(fault)),
    }
}
