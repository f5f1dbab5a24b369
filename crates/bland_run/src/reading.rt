//! The text of a form.
ghost use Rattle.std.specs.Prelude.{◌≡◌, IfOk, IfSome, option_map};
ghost use Rattle.simplex_core.specs.StdForm.{IsWellShaped};
ghost use Rattle.bland_run.specs.Reading.{IsSmall, form_in, form_in_lines, unended};

use crate::form::form_of;
use crate::numbers::read_rows;
use crate::size::read_size;
use lists::Memory;
use script_tokens::Pieces;
use simplex_core::StdForm;
use std::alloc::Global;

// The form that a text writes: a line of its numbers of rows and columns, a line a row with its
// right side last, and a line of costs; words separated by single spaces, and a newline after each
// line. There is none exactly where the text isn't of this form, a number of rows or columns is 0,
// they are more than 61 together, or a right side is below 0.
#[tactic(auto, unfolding(crate::specs::Reading::form_in))]
pub(crate) fn read_form(alloc: Global, text: &[u8]) -> Result<Option<StdForm>, Memory>
    ensures value { IfOk result (λ form. form ≡ form_in text.now) }
    ensures small { IfOk result (λ form. IfSome form IsSmall) }
{
    match unended(text) {
        Some(body) => read_lines(alloc, Pieces::new(body, b'\n')),
        None => Ok(None),
    }
}

// The text without its last byte, where that is a newline.
#[tactic(auto, unfolding(crate::specs::Reading::unended))]
fn unended(text: &[u8]) -> Option<&[u8]>
    ensures { option_map (λ body. body.now) result ≡ unended text.now }
{
    if text.is_empty() {
        return None;
    }
    let end = text.len() - 1;
    if text[end] == b'\n' {
        Some(&text[..end])
    } else {
        None
    }
}

#[tactic(auto, unfolding(crate::specs::Reading::form_in_lines))]
fn read_lines(alloc: Global, mut lines: Pieces<'_>) -> Result<Option<StdForm>, Memory>
    ensures value { IfOk result (λ form. form ≡ form_in_lines lines.entry) }
    ensures small { IfOk result (λ form. IfSome form IsSmall) }
{
    let Some(first) = lines.next() else {
        return Ok(None);
    };
    let Some(size) = read_size(first) else {
        return Ok(None);
    };
    let Some(rows) = read_rows(alloc, lines)? else {
        return Ok(None);
    };
    form_of(alloc, size, rows.as_slice())
}
