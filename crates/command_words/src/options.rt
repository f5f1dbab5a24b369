//! The options among the words of a command.
ghost use Rattle.std.specs.Prelude.{◌≡◌};
ghost use Rattle.command_words.specs.Options.{is_joined, is_option, no_options, setup_by, with_joined, with_option, with_pivots, with_target};

use crate::words::Setup;
use item_core::Target;
use script_tokens::{is, parted_at, read_number, read_target};

/// The options that were given.
#[derive(Clone, Copy, Debug, PartialEq, Eq)]
pub(crate) struct Options {
    pub(crate) target: Option<Target>,
    pub(crate) pivots: Option<u32>,
}

impl Options {
    pub(crate) fn none() -> Options
        ensures { result ≡ no_options }
    {
        Options {
            target: None,
            pivots: None,
        }
    }

    // These options and the one in the word NAME=VALUE.
    #[tactic(auto, unfolding(crate::specs::Options::with_joined))]
    pub(crate) fn with_joined(self, word: &[u8]) -> Option<Options>
        ensures { result ≡ with_joined self word.now }
    {
        let (name, value) = parted_at(word, b'=');
        self.with(name, value)
    }

    // These options and one more.
    #[tactic(auto, unfolding(crate::specs::Options::with_option))]
    pub(crate) fn with(self, name: &[u8], value: &[u8]) -> Option<Options>
        ensures { result ≡ with_option self name.now value.now }
    {
        if is(name, "--target") {
            self.with_target(read_target(value)?)
        } else if is(name, "--pivots") {
            self.with_pivots(read_number(value)?)
        } else {
            None
        }
    }

    fn with_target(self, target: Target) -> Option<Options>
        ensures { result ≡ with_target self target }
    {
        match self.target {
            None => Some(Options {
                target: Some(target),
                ..self
            }),
            Some(_) => None,
        }
    }

    fn with_pivots(self, pivots: u32) -> Option<Options>
        ensures { result ≡ with_pivots self pivots }
    {
        match self.pivots {
            None => Some(Options {
                pivots: Some(pivots),
                ..self
            }),
            Some(_) => None,
        }
    }

    pub(crate) fn setup(self) -> Setup
        ensures { result ≡ setup_by self }
    {
        Setup {
            target: self.target.unwrap_or(Target::Standard),
            pivots: self.pivots.unwrap_or(100_000),
        }
    }
}

// Whether a word is of an option.
pub(crate) fn is_option(word: &[u8]) -> bool
    ensures { result ≡ is_option word.now }
{
    word.starts_with(b"-")
}

// Whether a word is NAME=VALUE.
pub(crate) fn is_joined(word: &[u8]) -> bool
    ensures { result ≡ is_joined word.now }
{
    word.contains(&b'=')
}
