//! The rewriting of a whole text.
ghost use Rattle.std.specs.Prelude.{◌≡◌, IfOk};
ghost use Rattle.mof_text.specs.Rewritten.{rewritten};

use crate::numeral::put_replaced;
use crate::pieces::{is_run_byte, other_len, run_len};
use lists::Memory;
use std::alloc::Global;

/// The JSON text with exact text in place of each number that a reader of floats might round: a
/// number that is `-0`, or has a point, an exponent or more than 18 digits, and is no key, becomes
/// the string of its exact value as `Ratio` prints it, or `"!"` where that doesn't fit. Nothing
/// else changes, and no text is refused. The work is linear in the text.
pub fn exact_numerals(alloc: Global, text: &[u8]) -> Result<Vec<u8>, Memory>
    ensures { IfOk result (λ exact. exact.items ≡ rewritten text.now) }
{
    // Exact text may be longer than its numeral: 5.5 becomes "11/2".
    let mut exact = Vec::with_capacity(alloc, text.len() + text.len() / 8)?;
    let mut copied = 0;
    let mut place = 0;
    while place < text.len() {
        if is_run_byte(text[place]) {
            let end = place + run_len(&text[place..]);
            let before = &text[copied..place];
            let is_replaced = put_replaced(&mut exact, before, &text[place..end], &text[end..])?;
            if is_replaced {
                copied = end;
            }
            place = end;
        } else {
            place += other_len(&text[place..]);
        }
    }
    exact.extend_from_slice(&text[copied..])?;
    Ok(exact)
}
