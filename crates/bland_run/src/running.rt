//! The program's call.
ghost use Rattle.std.specs.Prelude.{◌≡◌, ◌≤◌, ◌<◌, ◌+◌, ◌↔◌, ◌⊎◌, Bool, [], IfSome, length};
ghost use Rattle.std.specs.Io.KnownBytes.{IsAtEnd};
ghost use Rattle.io_face.specs.Fault.{CountsNoFault, HasFaulted};
ghost use Rattle.io_face.specs.Sink.{Adds, AddsPrefix};
ghost use Rattle.bland_run.specs.Answering.{AnswersForm};
ghost use Rattle.bland_run.specs.Input.{input_limit};
ghost use Rattle.io_face.specs.Source.{TakesAtMost};
ghost use Rattle.bland_run.specs.Reading.{form_in};
ghost use Rattle.bland_run.specs.Run.{IsInputReadable};
ghost use Rattle.bland_run.specs.Status.{IsFormAnswered, has_refused};

use crate::answering::reply_to;
use crate::input::read_input;
use crate::status::Status;
use io_face::{Sink, Source, write_all};
use std::alloc::Global;

/// Reads a form, solves it by Bland's rule and prints the answer. The program takes no words.
///
/// The input has a line of the numbers of rows and columns, a line for each row with its right side
/// last, and a line of costs. The answer is `optimal`, `infeasible` or `unbounded`, and then a line
/// for the point `x`, the multipliers `y` and the ray `d`, as far as it has them.
pub fn run<I: Source, O: Sink>(
    alloc: Global,
    words: &[String],
    input: &mut I,
    output: &mut O,
) -> Status
    // With words nothing is read or written.
    ensures usage { (result ≡ Status.Usage) ↔ (0 < length words.now) }
    ensures untouched { result ≡ Status.Usage
        → (input.new ≡ input.old) × (output.new ≡ output.old) }

    // Once the work ended, what was written is the answer to the form that the input writes, or the
    // refusal, and the input was read to its end.
    ensures text { IsFormAnswered result → IfSome (I.left input.old) (λ bytes.
        AnswersForm (form_in bytes) (has_refused result)
        (Adds (O.written output.old) (O.written output.new))) }
    ensures to_the_end { IsFormAnswered result → IsAtEnd (I.left input.new) }
    ensures within_limit { IsFormAnswered result
        → IfSome (I.left input.old) (λ bytes. length bytes ≤ input_limit) }

    // However it ended, what was written begins that text. At most one byte past the limit was
    // taken.
    ensures prefix { let begun = AddsPrefix (O.written output.old) (O.written output.new) in
        IfSome (I.left input.old) (λ bytes.
        begun [] ⊎ ((refused : Bool) × AnswersForm (form_in bytes) refused begun)) }
    ensures taken { TakesAtMost (input_limit + 1) (I.left input.old) (I.left input.new) }

    // Where reading failed or the input is too long, nothing is written.
    ensures unwritten { (result ≡ Status.ReadFault) ⊎ (result ≡ Status.TooLong)
        → output.new ≡ output.old }
    ensures read_fault { result ≡ Status.ReadFault
        → HasFaulted (I.faults input.old) (I.faults input.new) }
    ensures write_fault { result ≡ Status.WriteFault
        → HasFaulted (O.faults output.old) (O.faults output.new) }
    ensures too_long { result ≡ Status.TooLong
        → IfSome (I.left input.old) (λ bytes. input_limit < length bytes) }

    // With nothing against it, the work ends, unless memory runs out.
    ensures complete { length words.now ≡ 0 → IsInputReadable (I.left input.old)
        → CountsNoFault (I.faults input.old) (I.faults input.new)
        → CountsNoFault (O.faults output.old) (O.faults output.new)
        → IsFormAnswered result ⊎ (result ≡ Status.Memory) }
{
    if !words.is_empty() {
        return Status::Usage;
    }
    let mut text = Vec::new(alloc);
    match read_input(input, &mut text) {
        Ok(()) => answer(alloc, &text, output),
        Err(fault) => Status::from(fault),
    }
}

// Writes what a text is answered.
fn answer<O: Sink>(alloc: Global, text: &[u8], output: &mut O) -> Status
    ensures text { IsFormAnswered result → AnswersForm (form_in text.now) (has_refused result)
        (Adds (O.written output.old) (O.written output.new)) }
    ensures prefix { let begun = AddsPrefix (O.written output.old) (O.written output.new) in
        begun [] ⊎ ((refused : Bool) × AnswersForm (form_in text.now) refused begun) }
    ensures write_fault { result ≡ Status.WriteFault
        → HasFaulted (O.faults output.old) (O.faults output.new) }
    ensures no_other { (IsFormAnswered result ⊎ (result ≡ Status.Memory))
        ⊎ (result ≡ Status.WriteFault) }
{
    let Ok(reply) = reply_to(alloc, text) else {
        return Status::Memory;
    };
    match write_all(output, &reply.text) {
        Ok(()) => Status::ended(reply.is_refusal),
        Err(fault) => Status::from(fault),
    }
}
