//! The number after `ok`.
ghost use Rattle.std.specs.Prelude.{◌≡◌, true};
ghost use Rattle.std.specs.Str.Parse.{digits_value};
ghost use Rattle.script_tokens.specs.Number.{in_bits, is_digits};
ghost use Rattle.run_summary.specs.Calls.{calls_in, count_in, first_line};

use script_tokens::{is, is_digits, parted_at};
use std::str;

// The first line of a text, without its newline.
pub(crate) fn first_line(text: &[u8]) -> &[u8]
    ensures { result.now ≡ first_line text.now }
{
    parted_at(text, b'\n').0
}

/// The number after `ok`, and 0 where there is none.
#[tactic(auto, unfolding(crate::specs::Calls::calls_in))]
pub(crate) fn calls_in(text: &[u8]) -> u64
    ensures { result ≡ calls_in text.now }
{
    let (word, number) = parted_at(first_line(text), b' ');
    if is(word, "ok") {
        count_in(number).unwrap_or(0)
    } else {
        0
    }
}

// The number that decimal digits write, if 64 bits hold it.
fn count_in(digits: &[u8]) -> Option<u64>
    ensures { result ≡ count_in digits.now }
{
    if is_digits(digits) {
        value(digits)
    } else {
        None
    }
}

fn value(digits: &[u8]) -> Option<u64>
    requires { is_digits digits.now ≡ true }
    ensures { result ≡ in_bits 64 (digits_value 10 digits.now) }
{
    match str::from_utf8(digits) {
        Ok(text) => text.parse().ok(),
        Err(_) => None,
    }
}
