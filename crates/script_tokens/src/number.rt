//! Whole numbers of a script.
ghost use Rattle.std.specs.Prelude.{◌≡◌, true};
ghost use Rattle.std.specs.Char.{is_ascii_digit};
ghost use Rattle.std.specs.List.{list_all};
ghost use Rattle.std.specs.Str.Parse.{digits_value};
ghost use Rattle.script_tokens.specs.Number.{in_bits, is_digits, is_numeral, number_of};

use std::str;

/// The most digits that a number has.
const MOST_DIGITS: usize = 10;

/// The number that a token is: one to ten decimal digits, of value at most 4,294,967,295.
#[tactic(auto, unfolding(crate::specs::Number::number_of))]
pub fn read_number(token: &[u8]) -> Option<u32>
    ensures { result ≡ number_of token.now }
{
    if is_numeral(token) {
        value(token)
    } else {
        None
    }
}

fn is_numeral(token: &[u8]) -> bool
    ensures { result ≡ is_numeral token.now }
{
    is_digits(token) && token.len() <= MOST_DIGITS
}

/// Whether a word is one decimal digit or more.
pub fn is_digits(word: &[u8]) -> bool
    ensures { result ≡ is_digits word.now }
{
    !word.is_empty() && are_digits(word)
}

fn are_digits(word: &[u8]) -> bool
    ensures { result ≡ list_all is_ascii_digit word.now }
{
    word.iter().all(|b| b.is_ascii_digit())
}

// The number that digits write, if 32 bits hold it.
fn value(digits: &[u8]) -> Option<u32>
    requires { is_digits digits.now ≡ true }
    ensures { result ≡ in_bits 32 (digits_value 10 digits.now) }
{
    match str::from_utf8(digits) {
        Ok(text) => text.parse().ok(),
        Err(_) => None,
    }
}
