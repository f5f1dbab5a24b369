//! Text cut at each separator, which borrows it.
ghost use Rattle.std.specs.Prelude.{◌≡◌, ◌==◌};
ghost use Rattle.std.specs.Iterator.{YieldsFirstBy, item_count};
ghost use Rattle.std.specs.List.{slice_split};

use crate::tokens::parted_at;
use std::marker::Model;

/// The pieces that are left of a text: its lines, or the words of a line. What stands after the
/// last separator is the last piece.
#[derive(Drop)]
pub struct Pieces<'a> {
    rest: Option<&'a [u8]>,
    separator: u8,
}

impl<'a> Model for Pieces<'a> {
    ghost use Rattle.std.specs.Prelude.{List, ℕ};
    ghost use Rattle.script_tokens.specs.Pieces.{pieces_left};

    ghost Value = { List (List ℕ) };

    ghost view = { λ pieces. pieces_left pieces.separator pieces.rest };
}

impl<'a> Pieces<'a> {
    pub fn new(text: &'a [u8], separator: u8) -> Pieces<'a>
        ensures { result ≡ slice_split (λ b. b == separator) text.now }
    {
        Pieces {
            rest: Some(text),
            separator,
        }
    }
}

impl<'a> Iterator for Pieces<'a> {
    type Item = &'a [u8];

    ghost next_gives = { YieldsFirstBy (λ piece. piece.now) (λ pieces. pieces) };

    ghost remaining = { item_count (λ pieces. pieces) };

    fn next(&mut self) -> Option<&'a [u8]> {
        let text = self.rest?;
        let (piece, after) = parted_at(text, self.separator);
        self.rest = if piece.len() < text.len() {
            Some(after)
        } else {
            None
        };
        Some(piece)
    }
}
