//! What the answers to a script come to.
ghost use Rattle.std.specs.Prelude.{◌≡◌, ◌+◌, ◌*◌, ◌<◌, ◌≤◌, ◌^◌, ◌++◌, [], IfOk, OnOk, nat_lt, if◌then◌else◌};
ghost use Rattle.run_summary.specs.Summary.{calls_of, is_refusal, number_line, one_more, printed_of, summary_text, tally_of};

use crate::calls::{calls_in, first_line};
use lists::{Memory, Sequence};
use name_index::Text;
use report_core::Answer;
use std::alloc::Global;

/// How many answers there were, how many of them were refusals, the sum of the numbers after `ok`,
/// and the last of them. The sum bounds how often the solver's model was called, which may be less.
#[derive(Debug, Drop)]
pub struct Tally {
    pub lines: u128,
    pub refused: u128,
    pub calls: u128,
    pub last: Answer,
}

impl Tally {
    /// Of no answer.
    pub fn new() -> Tally
        ensures { result ≡ tally_of [] }
    {
        Tally {
            lines: 0,
            refused: 0,
            calls: 0,
            last: Answer::Silent,
        }
    }

    /// Counts one answer more.
    pub fn add(&mut self, answer: Answer)
        requires lines { self.old.lines < 2 ^ 64 }
        requires refused { self.old.refused ≤ self.old.lines }
        requires calls { self.old.calls ≤ self.old.lines * 2 ^ 64 }
        ensures counted { self.new ≡ one_more self.old answer }
        ensures refused { self.new.refused ≤ self.new.lines }
        ensures calls { self.new.calls ≤ self.new.lines * 2 ^ 64 }
    {
        self.lines += 1;
        self.refused += refusals_in(&answer);
        self.calls += u128::from(calls_of(&answer));
        self.last = answer;
    }

    /// Whether an answer was a refusal.
    pub fn any_refused(&self) -> bool
        ensures { result ≡ nat_lt 0 self.now.refused }
    {
        self.refused > 0
    }

    /// The four lines of the summary.
    #[tactic(auto, unfolding(crate::specs::Summary::summary_text))]
    pub fn summary(&self, alloc: Global) -> Result<Text, Memory>
        ensures { IfOk result (λ text. text ≡ summary_text self.now) }
    {
        let mut text = Vec::new(alloc);
        push_number_line(&mut text, "lines ", self.lines)?;
        push_number_line(&mut text, "refused ", self.refused)?;
        push_number_line(&mut text, "calls ", self.calls)?;
        text.extend_from_slice(first_line(printed_of(&self.last)))?;
        text.extend_from_slice(b"\n")?;
        Ok(Sequence::from_vec(text))
    }
}

fn push_number_line(text: &mut Vec<u8>, word: &str, number: u128) -> Result<(), Memory>
    ensures { OnOk result (text.new.items ≡ text.old.items ++ number_line word.now number) }
{
    let digits = number.to_string(*text.allocator())?;
    text.extend_from_slice(word.as_bytes())?;
    text.extend_from_slice(digits.as_bytes())?;
    text.extend_from_slice(b"\n")?;
    Ok(())
}

fn refusals_in(answer: &Answer) -> u128
    ensures { result ≡ (if is_refusal answer.now then 1 else 0) }
{
    match answer {
        Answer::Refused(_) => 1,
        _ => 0,
    }
}

fn calls_of(answer: &Answer) -> u64
    ensures { result ≡ calls_of answer.now }
{
    match answer {
        Answer::Printed(text) => calls_in(text.as_slice()),
        _ => 0,
    }
}

fn printed_of(answer: &Answer) -> &[u8]
    ensures { result.now ≡ printed_of answer.now }
{
    match answer {
        Answer::Printed(text) | Answer::Refused(text) => text.as_slice(),
        _ => &[],
    }
}
