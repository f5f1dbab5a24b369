//! The dimension of a map.
ghost use Rattle.std.specs.Prelude.{◌≡◌, ◌≤◌, ◌<◌, IfSome, true};
ghost use Rattle.std.specs.Str.Parse.{digits_value};
ghost use Rattle.script_tokens.specs.Number.{in_bits, is_digits};
ghost use Rattle.map_file.specs.Lines.{size_of};

use script_tokens::is_digits;
use std::str;

/// A dimension: decimal digits, of value from 1 to 64.
pub(crate) fn read_size(word: &[u8]) -> Option<usize>
    ensures value { result ≡ size_of word.now }
    ensures some { IfSome result (λ n. 1 ≤ n) }
    ensures few { IfSome result (λ n. n ≤ 64) }
{
    if !is_digits(word) {
        return None;
    }
    match value(word) {
        Some(n) if 1 <= n && n <= 64 => Some(n as usize),
        _ => None,
    }
}

// The number that digits write, if 8 bits hold it.
fn value(digits: &[u8]) -> Option<u8>
    requires { is_digits digits.now ≡ true }
    ensures { result ≡ in_bits 8 (digits_value 10 digits.now) }
{
    match str::from_utf8(digits) {
        Ok(text) => text.parse().ok(),
        Err(_) => None,
    }
}
