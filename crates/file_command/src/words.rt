//! The argument that names the model's file.
ghost use Rattle.std.specs.Prelude.{◌≡◌, IfOk, IsSome, OnErr};
ghost use Rattle.command_words.specs.Texts.{texts};
ghost use Rattle.file_command.specs.Words.{is_file_word, model_word};

use lists::Memory;
use name_index::Name;
use std::alloc::Global;

/// The name of the model's file, where the arguments are one, as long as a name, that doesn't begin
/// with `-`. Memory runs out only where they are.
pub fn model_word(alloc: Global, words: &[String]) -> Result<Option<Name>, Memory>
    ensures said { IfOk result (λ name. name ≡ model_word (texts words.now)) }
    ensures of_one { OnErr result (IsSome (model_word (texts words.now))) }
{
    match words {
        [word] if is_file_word(word) => Ok(Some(file_name(alloc, word)?)),
        _ => Ok(None),
    }
}

/// Whether an argument can name a file.
pub fn is_file_word(word: &str) -> bool
    ensures { result ≡ is_file_word word.now }
{
    1 <= word.len() && word.len() <= Name::MAX_LEN && !word.starts_with("-")
}

/// The name of a file by its argument.
pub fn file_name(alloc: Global, word: &str) -> Result<Name, Memory>
    ensures { IfOk result (λ name. name ≡ word.now) }
{
    match Name::new(alloc, word) {
        Ok(name) => Ok(name),
        Err(_) => Err(Memory),
    }
}
