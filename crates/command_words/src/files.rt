//! The words of files among the words of a command.
ghost use Rattle.std.specs.Prelude.{◌≡◌, ◌++◌, [], ◌∷◌, None, IfSome, length};
ghost use Rattle.command_words.specs.Files.{files_in, has_name_length};

use name_index::Name;

// The words of files that were given so far. No command takes more than two.
#[derive(Clone, Copy)]
pub(crate) enum FileWords<'a> {
    None,
    One(&'a str),
    Two(&'a str, &'a str),
}

impl<'a> FileWords<'a> {
    // One word more; `None` where there are two.
    pub(crate) fn with(self, word: &'a str) -> Option<FileWords<'a>>
        ensures more { IfSome result (λ words. files_in words ≡ files_in self.entry ++ word.now ∷ []) }
        ensures full { result ≡ None → length (files_in self.entry) ≡ 2 }
    {
        match self {
            FileWords::None => Some(FileWords::One(word)),
            FileWords::One(first) => Some(FileWords::Two(first, word)),
            FileWords::Two(_, _) => None,
        }
    }
}

// Whether a word is as long as a name.
pub(crate) fn is_name(word: &str) -> bool
    ensures { result ≡ has_name_length word.now }
{
    1 <= word.len() && word.len() <= Name::MAX_LEN
}
