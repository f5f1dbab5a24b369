//! The commands, by the words.
ghost use Rattle.std.specs.Prelude.{◌≡◌, ◌≢◌, ℕ, Bool, ◌+◌, ◌↔◌, ◌⊎◌, [], None, Some, false, IfSome, IsTrue};
ghost use Rattle.cache_layer.specs.Cached.{StandsAttached, model_in};
ghost use Rattle.edit_engine.specs.Held.{machine_of, state_of};
ghost use Rattle.certificate_check.specs.Verdict.{AsksModelAndCertificate};
ghost use Rattle.io_face.specs.Fault.{CountsNoFault, HasFaulted};
ghost use Rattle.io_face.specs.Shelf.{AsksFor};
ghost use Rattle.io_face.specs.Sink.{Adds, AddsPrefix};
ghost use Rattle.io_face.specs.Told.{told_by};
ghost use Rattle.moi_run.specs.Answering.{BeginsAnswers, WritesAnswers};
ghost use Rattle.moi_run.specs.Commands.{AsksInVain, CanAllBeFetched, CanBeRead, FetchesNothing, HasReadFault, IfCheck, IfGenerate, ReadsNothing, generate_start, input_for, lines_for, said_by, setup_for, start_for};
ghost use Rattle.moi_run.specs.Generated.{BeginsSummary, EndsWithSummary, MayWriteSummary, WritesSummary};
ghost use Rattle.moi_run.specs.Input.{IsInputWithinLimits, IsReadToEnd};
ghost use Rattle.moi_run.specs.Run.{AtLimit, AtReadFault, AtWriteFault, HasTooLong, Runs, WritesVerdict};
ghost use Rattle.moi_run.specs.Status.{IsEnded, has_refused};
ghost use Rattle.moi_run.specs.RunState.{run_state_of};
ghost use Rattle.line_reader.specs.Limits.{input_limit};
ghost use Rattle.io_face.specs.Source.{TakesAtMost};

use crate::answers::answer_with;
use crate::check::answer_check;
use crate::generating::answer_generated;
use crate::input::answer_script;
use crate::solve::answer_solve;
use crate::status::Status;
use bridge_face::Bridge;
use command_words::{Invocation, read_words};
use edit_engine::Session;
use io_face::{Shelf, Sink, Source};
use std::alloc::Global;

/// Does what the words say, over the files of `shelf`: `run` reads a script from `input` and writes
/// the answer of each line to `output`, up to the end of the input or the line `quit`; `plan`
/// answers that line alone; `solve` answers the lines that load the model of a file, attach a
/// solver and optimise; `check` answers whether the certificate of a file proves what it says of a
/// file's model; `gen` answers the lines of a generated script, and writes the summary of the
/// answers.
pub fn run<B: Bridge, H: Shelf, I: Source, O: Sink>(
    alloc: Global,
    words: &[String],
    shelf: &mut H,
    input: &mut I,
    output: &mut O,
    session: &mut Session<B>,
) -> Status
    requires detached { (state_of session.old).attached ≡ false }

    // Nothing is read or written, and the session stays, at words of no command.
    ensures usage { (result ≡ Status.Usage) ↔ (said_by words.now ≡ None) }
    ensures untouched { result ≡ Status.Usage → (shelf.new ≡ shelf.old)
        × (input.new ≡ input.old) × (output.new ≡ output.old) × (session.new ≡ session.old) }

    // Once the work ended, the lines were answered one after another and their text was written,
    // and the session is in the state that they leave. Its solver's model was called at most as
    // often as the numbers after `ok` in the answers say together, and the files for which the
    // lines ask were asked for, in turn, and no others.
    ensures text { let said = said_by words.now in
        let told = told_by (H.files shelf.old) (H.sure shelf.old) in
        let before = run_state_of session.old told (H.asked shelf.old) in
        let after = run_state_of session.new told (H.asked shelf.new) in
        IsEnded result → IfSome (lines_for said (I.left input.old)) (λ lines.
        WritesAnswers (start_for said before) lines (has_refused result) after
        (Adds (O.written output.old) (O.written output.new))) }
    ensures pivots { IsEnded result → IfSome (setup_for (said_by words.now)) (λ setup.
        session.new.pivots ≡ setup.pivots) }
    ensures to_the_end { IsEnded result
        → IfSome (input_for (said_by words.now) (I.left input.old)) (λ bytes.
        IsReadToEnd bytes (I.left input.new)) }
    ensures within_limits { IsEnded result
        → IfSome (input_for (said_by words.now) (I.left input.old)) IsInputWithinLimits }

    // Or the lines of the generated script were answered, and the summary was written.
    ensures summary { let said = said_by words.now in
        let told = told_by (H.files shelf.old) (H.sure shelf.old) in
        IsEnded result → IfGenerate said (λ numbers.
        WritesSummary (generate_start (machine_of session.old told)) numbers (has_refused result)
        (machine_of session.new told) (Adds (O.written output.old) (O.written output.new))) }

    // Or the verdict on the two files was given, and the session is as it was.
    ensures verdict { let told = told_by (H.files shelf.old) (H.sure shelf.old) in
        IsEnded result → IfCheck (said_by words.now) (λ model certificate.
        WritesVerdict told model certificate (has_refused result)
        (Adds (O.written output.old) (O.written output.new))) }
    ensures idle { IfCheck (said_by words.now) (λ _ _. session.new ≡ session.old) }
    // The model's file was asked for, and after it the certificate's, where the model was made.
    ensures asks { let told = told_by (H.files shelf.old) (H.sure shelf.old) in
        result ≢ Status.Memory → IfCheck (said_by words.now) (λ model certificate.
        AsksModelAndCertificate told model certificate (AsksFor (H.asked shelf.old) (H.asked shelf.new))) }

    // Where the work ended, no fault was counted: each that is counted is reported.
    ensures sound_reads { IsEnded result → I.faults input.new ≡ I.faults input.old }
    ensures sound_fetches { IsEnded result → H.faults shelf.new ≡ H.faults shelf.old }
    ensures sound_writes { IsEnded result → O.faults output.new ≡ O.faults output.old }

    // However it ended, some of the first lines were answered, and what was written begins their
    // text, or that of the verdict. At most one byte past the limit of the input was taken.
    ensures prefix { let said = said_by words.now in
        let told = told_by (H.files shelf.old) (H.sure shelf.old) in
        let before = run_state_of session.old told (H.asked shelf.old) in
        let after = run_state_of session.new told (H.asked shelf.new) in
        IfSome (lines_for said (I.left input.old)) (λ lines.
        BeginsAnswers (start_for said before) lines result after
        (AddsPrefix (O.written output.old) (O.written output.new))) }
    ensures verdict_prefix { let told = told_by (H.files shelf.old) (H.sure shelf.old) in
        let begun = AddsPrefix (O.written output.old) (O.written output.new) in
        IfCheck (said_by words.now) (λ model certificate. begun []
        ⊎ ((refused : Bool) × WritesVerdict told model certificate refused begun)) }
    ensures summary_prefix { let said = said_by words.now in
        let told = told_by (H.files shelf.old) (H.sure shelf.old) in
        IfGenerate said (λ numbers.
        MayWriteSummary (generate_start (machine_of session.old told)) numbers
        (machine_of session.new told)
        (AddsPrefix (O.written output.old) (O.written output.new))) }
    ensures taken { TakesAtMost (input_limit + 1) (I.left input.old) (I.left input.new) }

    // A fault of the source or of the shelf was counted; a sure shelf lacks a file that the command
    // asks for. What was taken, or the lines before the one that asks for a file, was answered; of
    // `check` it is said at which of its files the shelf failed.
    ensures read_fault { let said = said_by words.now in
        let told = told_by (H.files shelf.old) (H.sure shelf.old) in
        result ≡ Status.ReadFault → HasReadFault said
        (HasFaulted (I.faults input.old) (I.faults input.new))
        (HasFaulted (H.faults shelf.old) (H.faults shelf.new)
        × (IsTrue (H.sure shelf.old) → AsksInVain said (I.left input.old) told)) }
    ensures at_read_fault { let said = said_by words.now in
        let told = told_by (H.files shelf.old) (H.sure shelf.old) in
        let before = run_state_of session.old told (H.asked shelf.old) in
        let after = run_state_of session.new told (H.asked shelf.new) in
        result ≡ Status.ReadFault → AtReadFault told said
        (HasFaulted (I.faults input.old) (I.faults input.new))
        (HasFaulted (H.faults shelf.old) (H.faults shelf.new)) (I.left input.old)
        (I.left input.new) (start_for said before) after
        (Adds (O.written output.old) (O.written output.new)) }
    // A fault of the sink was counted. The lines before one were answered, and of the answer to that
    // one a part was written; no line behind it changed the session.
    ensures write_fault { result ≡ Status.WriteFault
        → HasFaulted (O.faults output.old) (O.faults output.new) }
    ensures at_write_fault { let said = said_by words.now in
        let told = told_by (H.files shelf.old) (H.sure shelf.old) in
        let before = run_state_of session.old told (H.asked shelf.old) in
        let after = run_state_of session.new told (H.asked shelf.new) in
        result ≡ Status.WriteFault → AtWriteFault said (I.left input.old)
        (start_for said before) after
        (Adds (O.written output.old) (O.written output.new)) }

    // A line, the input or a file is too long. The lines before that were answered.
    ensures too_long { result ≡ Status.TooLong
        → HasTooLong (said_by words.now) (I.left input.old)
        (told_by (H.files shelf.old) (H.sure shelf.old)) }
    ensures at_limit { let said = said_by words.now in
        let told = told_by (H.files shelf.old) (H.sure shelf.old) in
        let before = run_state_of session.old told (H.asked shelf.old) in
        let after = run_state_of session.new told (H.asked shelf.new) in
        result ≡ Status.TooLong → AtLimit told said (I.left input.old)
        (start_for said before) after
        (Adds (O.written output.old) (O.written output.new)) }

    // Only `run` reads the input, and neither `plan` nor `gen` asks for a file.
    ensures unread { ReadsNothing (said_by words.now) → input.new ≡ input.old }
    ensures unasked { FetchesNothing (said_by words.now) → (shelf.new ≡ shelf.old)
        × (result ≢ Status.ReadFault) × (result ≢ Status.TooLong) }

    // With nothing against it, the work ends, unless memory runs out.
    ensures complete { let said = said_by words.now in
        let told = told_by (H.files shelf.old) (H.sure shelf.old) in
        CanBeRead said (I.left input.old) (I.faults input.old) (I.faults input.new)
        → CanAllBeFetched said (I.left input.old) told (H.faults shelf.old) (H.faults shelf.new)
        → CountsNoFault (O.faults output.old) (O.faults output.new)
        → IsEnded result ⊎ (result ≡ Status.Memory) }

    // While a solver is attached, the fresh bridging of the session's model stands: the solver's
    // model, read through the map of addresses, is its leaves.
    ensures stands { let cache = session.new.cache in
        StandsAttached cache.attached cache.lazy (model_in cache) }
{
    let status = obey_words(alloc, words, shelf, input, output, session);
    // what this ensures: what stands in the session's cache
    let _stands = session.cache().attached();
    status
}

// The same, in terms of how the command ran.
fn obey_words<B: Bridge, H: Shelf, I: Source, O: Sink>(
    alloc: Global,
    words: &[String],
    shelf: &mut H,
    input: &mut I,
    output: &mut O,
    session: &mut Session<B>,
) -> Status
    requires detached { (state_of session.old).attached ≡ false }
    ensures usage { (result ≡ Status.Usage) ↔ (said_by words.now ≡ None) }
    ensures untouched { result ≡ Status.Usage → (shelf.new ≡ shelf.old)
        × (input.new ≡ input.old) × (output.new ≡ output.old) × (session.new ≡ session.old) }
    ensures runs { let told = told_by (H.files shelf.old) (H.sure shelf.old) in
        let before = run_state_of session.old told (H.asked shelf.old) in
        let after = run_state_of session.new told (H.asked shelf.new) in
        Runs (said_by words.now) result (I.left input.old) (I.left input.new) told
        (HasFaulted (I.faults input.old) (I.faults input.new))
        (HasFaulted (H.faults shelf.old) (H.faults shelf.new)) before
        after (Adds (O.written output.old) (O.written output.new))
        (AddsPrefix (O.written output.old) (O.written output.new)) }
    ensures summary { let told = told_by (H.files shelf.old) (H.sure shelf.old) in
        EndsWithSummary (said_by words.now) result (machine_of session.old told)
        (machine_of session.new told) (Adds (O.written output.old) (O.written output.new)) }
    ensures summary_prefix { let told = told_by (H.files shelf.old) (H.sure shelf.old) in
        BeginsSummary (said_by words.now) (machine_of session.old told) (machine_of session.new told)
        (AddsPrefix (O.written output.old) (O.written output.new)) }
    ensures idle { IfCheck (said_by words.now) (λ _ _. session.new ≡ session.old) }
    ensures taken { TakesAtMost (input_limit + 1) (I.left input.old) (I.left input.new) }
    ensures write_fault { result ≡ Status.WriteFault
        → HasFaulted (O.faults output.old) (O.faults output.new) }
    ensures unread { ReadsNothing (said_by words.now) → input.new ≡ input.old }
    ensures unasked { FetchesNothing (said_by words.now) → (shelf.new ≡ shelf.old)
        × (result ≢ Status.ReadFault) × (result ≢ Status.TooLong) }
    ensures sound_reads { IsEnded result → I.faults input.new ≡ I.faults input.old }
    ensures sound_fetches { IsEnded result → H.faults shelf.new ≡ H.faults shelf.old }
    ensures sound_writes { IsEnded result → O.faults output.new ≡ O.faults output.old }
{
    let said = match read_words(alloc, words) {
        Ok(said) => said,
        Err(_) => return Status::Memory,
    };
    match said {
        Some(command) => obey(alloc, command, shelf, input, output, session),
        None => Status::Usage,
    }
}

// Does what a command says.
fn obey<B: Bridge, H: Shelf, I: Source, O: Sink>(
    alloc: Global,
    command: Invocation,
    shelf: &mut H,
    input: &mut I,
    output: &mut O,
    session: &mut Session<B>,
) -> Status
    requires detached { (state_of session.old).attached ≡ false }
    ensures runs { let told = told_by (H.files shelf.old) (H.sure shelf.old) in
        let before = run_state_of session.old told (H.asked shelf.old) in
        let after = run_state_of session.new told (H.asked shelf.new) in
        Runs (Some command) result (I.left input.old) (I.left input.new) told
        (HasFaulted (I.faults input.old) (I.faults input.new))
        (HasFaulted (H.faults shelf.old) (H.faults shelf.new)) before
        after (Adds (O.written output.old) (O.written output.new))
        (AddsPrefix (O.written output.old) (O.written output.new)) }
    ensures summary { let told = told_by (H.files shelf.old) (H.sure shelf.old) in
        EndsWithSummary (Some command) result (machine_of session.old told)
        (machine_of session.new told) (Adds (O.written output.old) (O.written output.new)) }
    ensures summary_prefix { let told = told_by (H.files shelf.old) (H.sure shelf.old) in
        BeginsSummary (Some command) (machine_of session.old told) (machine_of session.new told)
        (AddsPrefix (O.written output.old) (O.written output.new)) }
    ensures idle { IfCheck (Some command) (λ _ _. session.new ≡ session.old) }
    ensures taken { TakesAtMost (input_limit + 1) (I.left input.old) (I.left input.new) }
    ensures write_fault { result ≡ Status.WriteFault
        → HasFaulted (O.faults output.old) (O.faults output.new) }
    ensures unread { ReadsNothing (Some command) → input.new ≡ input.old }
    ensures unasked { FetchesNothing (Some command) → (shelf.new ≡ shelf.old)
        × (result ≢ Status.ReadFault) × (result ≢ Status.TooLong) }
    ensures sound_reads { IsEnded result → I.faults input.new ≡ I.faults input.old }
    ensures sound_fetches { IsEnded result → H.faults shelf.new ≡ H.faults shelf.old }
    ensures sound_writes { IsEnded result → O.faults output.new ≡ O.faults output.old }
    ensures not_usage { result ≢ Status.Usage }
{
    match command {
        Invocation::Run(setup) => answer_script(alloc, setup, shelf, input, output, session),
        Invocation::Plan(setup) => {
            let lines: [&[u8]; 1] = [b"plan"];
            answer_with(setup, &lines, shelf, output, session)
        }
        Invocation::Solve { setup, model } => {
            answer_solve(alloc, setup, &model, shelf, output, session)
        }
        Invocation::Check { model, certificate } => {
            answer_check(alloc, &model, &certificate, shelf, output)
        }
        Invocation::Generate(recipe) => answer_generated(alloc, recipe, shelf, output, session),
    }
}
