//! What a line of the grammar is read as.
ghost use Rattle.std.specs.Prelude.{◌≡◌};
ghost use Rattle.script_core.specs.Reading as reading;

use crate::Command;
use script_tokens::Tokens;
use user_model::Edit;

/// What a line of the grammar says, or that a sum of its terms exceeds 128 bits.
#[derive(Drop)]
pub enum LineReading {
    Says(Command),
    Overflow,
}

pub fn says(command: Command) -> Option<LineReading>
    ensures { result ≡ reading.says command }
{
    Some(LineReading::Says(command))
}

pub fn makes(edit: Edit) -> Option<LineReading>
    ensures { result ≡ reading.makes edit }
{
    says(Command::Edit(edit))
}

/// A value that no token follows.
pub fn alone<T: Drop>(value: T, mut tokens: Tokens<'_>) -> Option<T>
    ensures { result ≡ reading.alone value tokens.entry }
{
    match tokens.next() {
        None => Some(value),
        Some(_) => None,
    }
}
