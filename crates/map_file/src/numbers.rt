//! A line of numbers.
ghost use Rattle.std.specs.Prelude.{◌≡◌, IfOk};
ghost use Rattle.ratio_core.specs.Text.{rational_of};
ghost use Rattle.script_tokens.specs.Each.{each};
ghost use Rattle.map_file.specs.Lines.{numbers_in};

use lists::{Memory, Sequence};
use ratio_core::{Ratio, Ratios};
use script_tokens::Pieces;
use std::alloc::Global;

/// The numbers of a line, with one space between one and the next.
pub(crate) fn read_numbers(alloc: Global, line: &[u8]) -> Result<Option<Ratios>, Memory>
    ensures { IfOk result (λ numbers. numbers ≡ numbers_in line.now) }
{
    each_number(alloc, Pieces::new(line, b' '))
}

fn each_number(alloc: Global, words: Pieces<'_>) -> Result<Option<Ratios>, Memory>
    ensures { IfOk result (λ numbers. numbers ≡ each rational_of words.entry) }
{
    let mut numbers = Vec::new(alloc);
    for word in words {
        let Some(number) = Ratio::read(word) else {
            return Ok(None);
        };
        numbers.push(number)?;
    }
    Ok(Some(Sequence::from_vec(numbers)))
}
