//! The reading of the file.
ghost use Rattle.std.specs.Prelude.{◌≡◌, ◌<◌, ◌≤◌, ◌==◌, ◌∷◌, [], IfOk, IfSome, MatchOption, length};
ghost use Rattle.std.specs.List.{slice_split};
ghost use Rattle.map_file.specs.Lines.{file_in};
ghost use Rattle.map_file.specs.Shaped.{IsShaped};

use crate::file::MapFile;
use crate::reader::Reader;
use lists::Memory;
use script_tokens::parted_at;
use std::alloc::Global;

/// What a file of maps says. A line is `map NAME D`, followed by D lines of D numbers for the matrix
/// and D lines of D numbers for its inverse, or `use NAME ROW SET`; words are separated by single
/// spaces, and a newline ends each line.
pub fn read(alloc: Global, text: &[u8]) -> Result<MapFile, Memory>
    requires { length text.now ≤ 67108864 }
    ensures said { IfOk result (λ file. file ≡ file_in text.now) }
    ensures shaped { IfOk result IsShaped }
{
    let mut reader = Reader::new(alloc);
    let mut rest = text;
    let mut number = 1;
    while let Some((line, after)) = ended_line(rest) {
        if !reader.line(line, number)? {
            return Ok(reader.stopped(Some(number)));
        }
        rest = after;
        number += 1;
    }
    let wrong = reader.wrong_end(rest, number);
    Ok(reader.stopped(wrong))
}

// The first line that a newline ends, and what is after it.
fn ended_line(text: &[u8]) -> Option<(&[u8], &[u8])>
    ensures split { MatchOption result (slice_split (λ b. b == 10) text.now ≡ text.now ∷ [])
        (λ parts. slice_split (λ b. b == 10) text.now
        ≡ parts.0.now ∷ slice_split (λ b. b == 10) parts.1.now) }
    ensures shorter { IfSome result (λ parts. length parts.1.now < length text.now) }
{
    let (line, after) = parted_at(text, b'\n');
    if line.len() < text.len() {
        Some((line, after))
    } else {
        None
    }
}
