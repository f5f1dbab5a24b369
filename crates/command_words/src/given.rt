//! What the words after a command's name give: options, and words of files.
ghost use Rattle.std.specs.Prelude.{◌≡◌, ◌≤◌, ◌⊎◌, None, Some, IfSome, length};
ghost use Rattle.command_words.specs.Files.{files_in, files_of};
ghost use Rattle.command_words.specs.Options.{no_options, options_from};
ghost use Rattle.command_words.specs.Texts.{texts};

use crate::files::FileWords;
use crate::options::{Options, is_joined, is_option};

#[derive(Clone, Copy)]
pub(crate) struct Given<'a> {
    pub(crate) options: Options,
    pub(crate) files: FileWords<'a>,
}

impl<'a> Given<'a> {
    // What the words give, in one pass; `None` where an option isn't one, is given twice or has no
    // value, and where there are more than two words of files.
    #[tactic(auto, using(crate::proofs::Reading::one_more), unfolding(crate::specs::Options::options_from, crate::specs::Files::files_of))]
    pub(crate) fn read(words: &'a [String]) -> Option<Given<'a>>
        ensures options { IfSome result (λ given.
            options_from no_options (texts words.now) ≡ Some given.options) }
        ensures files { IfSome result (λ given. files_of (texts words.now) ≡ files_in given.files) }
        ensures none { result ≡ None → (options_from no_options (texts words.now) ≡ None)
            ⊎ (3 ≤ length (files_of (texts words.now))) }
    {
        let mut options = Options::none();
        let mut files = FileWords::None;
        let mut left = words;
        'reading: loop {
            match left {
                [] => return Some(Given { options, files }),
                [word, after @ ..] if !is_option(word.as_bytes()) => {
                    files = files.with(word.as_str())?;
                    left = after;
                }
                [word, after @ ..] if is_joined(word.as_bytes()) => {
                    options = options.with_joined(word.as_bytes())?;
                    left = after;
                }
                [_] => return None,
                [name, value, after @ ..] => {
                    options = options.with(name.as_bytes(), value.as_bytes())?;
                    left = after;
                }
            }
        }
    }
}
