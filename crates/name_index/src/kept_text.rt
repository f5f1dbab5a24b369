//! Text that takes no memory where it is short.
ghost use Rattle.std.specs.Prelude.{◌≡◌, IfOk};
ghost use Rattle.name_index.specs.KeptText.{bytes_kept};

use arrayvec::ArrayString;
use std::alloc::{AllocError, Global};

/// The most bytes of a text that is kept in place, which most names have.
const SHORT: usize = 16;

/// Text, in place where it is short.
#[derive(Drop)]
pub(crate) enum KeptText {
    Short(ArrayString<SHORT>),
    Long(String),
}

impl KeptText {
    pub(crate) fn new(alloc: Global, text: &str) -> Result<KeptText, AllocError>
        ensures { IfOk result (λ kept. bytes_kept kept ≡ text.now) }
    {
        match ArrayString::from(text) {
            Ok(short) => Ok(KeptText::Short(short)),
            Err(_) => Ok(KeptText::Long(String::from_str(alloc, text)?)),
        }
    }

    pub(crate) fn as_str(&self) -> &str
        ensures { result.now ≡ bytes_kept self.now }
    {
        match self {
            KeptText::Short(text) => text.as_str(),
            KeptText::Long(text) => text.as_str(),
        }
    }
}
