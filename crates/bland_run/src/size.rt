//! The first line of a form: how many rows and columns it has.
ghost use Rattle.std.specs.Prelude.{◌≡◌, ◌+◌, ◌≤◌, IfSome, true};
ghost use Rattle.std.specs.Str.Parse.{digits_value};
ghost use Rattle.script_tokens.specs.Number.{in_bits, is_digits};
ghost use Rattle.bland_run.specs.Sizes.{count_in, size_in, size_of};

use script_tokens::{Pieces, is_digits};
use std::str;

/// How many rows and real columns a form has. The columns with an artificial one a row are few
/// enough for their sets to be numbered in 64 bits.
#[derive(Clone, Copy)]
pub(crate) struct Size {
    pub(crate) m: usize,
    pub(crate) c: usize,
}

/// The greatest sum of rows and columns.
const MOST_COLUMNS: usize = 61;

// The two numbers of a line.
pub(crate) fn read_size(line: &[u8]) -> Option<Size>
    ensures value { result ≡ size_in line.now }
    ensures within { IfSome result (λ size. size.m + size.c ≤ 61) }
{
    let mut words = Pieces::new(line, b' ');
    let (Some(m), Some(c), None) = (words.next(), words.next(), words.next()) else {
        return None;
    };
    size_from(read_count(m)?, read_count(c)?)
}

fn size_from(m: usize, c: usize) -> Option<Size>
    requires m { m ≤ 61 }
    requires c { c ≤ 61 }
    ensures value { result ≡ size_of m c }
    ensures within { IfSome result (λ size. size.m + size.c ≤ 61) }
{
    if m + c <= MOST_COLUMNS {
        Some(Size { m, c })
    } else {
        None
    }
}

// A number of rows or columns: decimal digits, of value from 1 to 61.
fn read_count(word: &[u8]) -> Option<usize>
    ensures value { result ≡ count_in word.now }
    ensures within { IfSome result (λ n. n ≤ 61) }
{
    if !is_digits(word) {
        return None;
    }
    match value(word) {
        Some(n) if 1 <= n && n <= 61 => Some(n as usize),
        _ => None,
    }
}

// The number that digits write, if 8 bits hold it.
fn value(digits: &[u8]) -> Option<u8>
    requires { is_digits digits.now ≡ true }
    ensures { result ≡ in_bits 8 (digits_value 10 digits.now) }
{
    match str::from_utf8(digits) {
        Ok(text) => text.parse().ok(),
        Err(_) => None,
    }
}
