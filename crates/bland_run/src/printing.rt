//! What is printed.
ghost use Rattle.std.specs.Prelude.{◌≡◌, ◌++◌, OnOk};
ghost use Rattle.bland_run.specs.Printing as texts;

use lists::Memory;
use ratio_core::Ratios;
use simplex_core::SolverAnswer;

// An answer: its word, and then a line for each of its lists of numbers.
pub(crate) fn push_answer(text: &mut Vec<u8>, answer: &SolverAnswer) -> Result<(), Memory>
    ensures { OnOk result (text.new.items ≡ text.old.items ++ texts.answer_text answer.now) }
{
    match answer {
        SolverAnswer::Optimal { x, y, .. } => push_optimal(text, x, y),
        SolverAnswer::Infeasible { y, .. } => push_infeasible(text, y),
        SolverAnswer::Unbounded { x, d, .. } => push_unbounded(text, x, d),
    }
}

#[tactic(auto, unfolding(crate::specs::Printing::optimal_text))]
fn push_optimal(text: &mut Vec<u8>, x: &Ratios, y: &Ratios) -> Result<(), Memory>
    ensures { OnOk result (text.new.items ≡ text.old.items ++ texts.optimal_text x.now y.now) }
{
    text.extend_from_slice(b"optimal\n")?;
    push_numbers(text, b'x', x)?;
    push_numbers(text, b'y', y)
}

#[tactic(auto, unfolding(crate::specs::Printing::infeasible_text))]
fn push_infeasible(text: &mut Vec<u8>, y: &Ratios) -> Result<(), Memory>
    ensures { OnOk result (text.new.items ≡ text.old.items ++ texts.infeasible_text y.now) }
{
    text.extend_from_slice(b"infeasible\n")?;
    push_numbers(text, b'y', y)
}

#[tactic(auto, unfolding(crate::specs::Printing::unbounded_text))]
fn push_unbounded(text: &mut Vec<u8>, x: &Ratios, d: &Ratios) -> Result<(), Memory>
    ensures { OnOk result (text.new.items ≡ text.old.items ++ texts.unbounded_text x.now d.now) }
{
    text.extend_from_slice(b"unbounded\n")?;
    push_numbers(text, b'x', x)?;
    push_numbers(text, b'd', d)
}

// A line of numbers, each after a space.
fn push_numbers(text: &mut Vec<u8>, letter: u8, numbers: &Ratios) -> Result<(), Memory>
    ensures { OnOk result (text.new.items
        ≡ text.old.items ++ texts.numbers_line letter numbers.now) }
{
    text.push(letter)?;
    for number in numbers.as_slice() {
        text.push(b' ')?;
        number.print(text)?;
    }
    text.push(b'\n')?;
    Ok(())
}
