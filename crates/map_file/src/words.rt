//! The words of a statement.
ghost use Rattle.std.specs.Prelude.{◌≡◌, option_map};
ghost use Rattle.map_file.specs.Lines.{map_name_of, unless_empty};

use std::str;

/// The name of a map: UTF-8 of one byte or more.
pub(crate) fn map_name(word: &[u8]) -> Option<&str>
    ensures { option_map (λ name. name.now) result ≡ map_name_of word.now }
{
    match str::from_utf8(word) {
        Ok(name) => unless_empty(name),
        Err(_) => None,
    }
}

fn unless_empty(name: &str) -> Option<&str>
    ensures { option_map (λ name. name.now) result ≡ unless_empty name.now }
{
    if name.is_empty() { None } else { Some(name) }
}
