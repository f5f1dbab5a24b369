//! A line of a script as its tokens, which borrow it.

ghost use Rattle.std.specs.Prelude.{◌≡◌, ◌≤◌, ◌==◌, length};
ghost use Rattle.std.specs.Iterator.{YieldsFirstBy, item_count};
ghost use Rattle.std.specs.List.{before_first, after_first, position_or_len};
ghost use Rattle.script_tokens.specs.Tokens.{tokens_of};

use std::marker::Model;

/// The tokens that are left of a line: runs of bytes other than the space.
#[derive(Drop)]
pub struct Tokens<'a> {
    rest: &'a [u8],
}

impl<'a> Model for Tokens<'a> {
    ghost use Rattle.std.specs.Prelude.{List, ℕ};
    ghost use Rattle.script_tokens.specs.Tokens.{tokens_of};

    ghost Value = { List (List ℕ) };

    ghost view = { λ tokens. tokens_of tokens.rest.now };
}

impl<'a> Tokens<'a> {
    pub fn new(line: &'a [u8]) -> Tokens<'a>
        ensures { result ≡ tokens_of line.now }
    {
        Tokens { rest: line }
    }
}

impl<'a> Iterator for Tokens<'a> {
    type Item = &'a [u8];

    ghost next_gives = { YieldsFirstBy (λ token. token.now) (λ tokens. tokens) };

    ghost remaining = { item_count (λ tokens. tokens) };

    fn next(&mut self) -> Option<&'a [u8]> {
        while !self.rest.is_empty() {
            let (token, rest) = parted_at(self.rest, b' ');
            self.rest = rest;
            if !token.is_empty() {
                return Some(token);
            }
        }
        None
    }
}

/// What stands before and after the first `separator`, or everything and nothing where it is
/// missing.
pub fn parted_at(bytes: &[u8], separator: u8) -> (&[u8], &[u8])
    ensures before { result.0.now ≡ before_first (λ b. b == separator) bytes.now }
    ensures after { result.1.now ≡ after_first (λ b. b == separator) bytes.now }
{
    let (before, rest) = bytes.split_at(place_of(bytes, separator));
    match rest {
        [] => (before, rest),
        [_, after @ ..] => (before, after),
    }
}

/// The place of the first `byte`, or the length.
fn place_of(bytes: &[u8], byte: u8) -> usize
    ensures value { result ≡ position_or_len (λ b. b == byte) bytes.now }
    ensures within { result ≤ length bytes.now }
{
    bytes.iter().position(|b| *b == byte).unwrap_or(bytes.len())
}
