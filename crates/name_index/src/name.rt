//! Names, and how a script writes them.
ghost use Rattle.std.specs.Prelude.{◌≡◌, ◌≤◌, ◌↔◌, Some, All, IsTrue, IfOk, OnOk, IfSome, IsErrOf};
ghost use Rattle.std.specs.Str.{bytes_eq};
ghost use Rattle.std.specs.Hash as fed;
ghost use Rattle.std.specs.Cmp.Lexicographic.{nat_list_eq_equiv};
ghost use Rattle.std.specs.Cmp.{partial_equiv_from_equiv};
ghost use Rattle.name_index.specs.Escape.{escaped, percent_decoded};

use crate::kept_text::KeptText;
use crate::{Memory, Text};
use lists::Duplicate;
use percent_encoding::{AsciiSet, CONTROLS, ascii_set, percent_decode, utf8_percent_encode};
use std::alloc::{AllocError, Global};
use std::fmt;
use std::hash::{Hash, Hasher};
use std::marker::Model;
use thiserror::Error;

/// What escaping writes as `%XX`, beside the bytes past ASCII: the controls, the space and the
/// percent sign.
const ESCAPED: AsciiSet = ascii_set!(CONTROLS.add(b' ').add(b'%'));

/// A name of a variable or a row: UTF-8 text of 1 to 4,096 bytes, which contracts see as its bytes.
#[derive(Drop)]
pub struct Name {
    alloc: Global,
    text: KeptText,
}

impl Model for Name {
    ghost use Rattle.std.specs.Prelude.{ℕ, List};
    ghost use Rattle.name_index.specs.KeptText.{bytes_kept};
    ghost use Rattle.name_index.specs.Name.{HasNameLength};

    ghost Value = { List ℕ };

    ghost view = { λ name. bytes_kept name.text };

    ghost invariant = { λ name. HasNameLength (bytes_kept name.text) };
}

/// Why a text is no name.
#[derive(Clone, Copy, Debug, PartialEq, Eq, Error)]
pub enum NameFault {
    /// The text is empty or has more than 4,096 bytes.
    #[error("a name has 1 to 4096 bytes")]
    BadName,
    /// There was no memory left.
    #[error("out of memory")]
    Memory,
}

impl From<AllocError> for NameFault {
    ghost use Rattle.name_index.specs.declared.name.NameFault.TheVariants.{Memory};

    ghost from_gives = { λ _ fault. fault ≡ Memory };

    fn from(_error: AllocError) -> NameFault {
        NameFault::Memory
    }
}

// Whether a text of this number of bytes can be a name.
fn is_name_length(len: usize) -> bool
    ensures { IsTrue result ↔ ((1 ≤ len) × (len ≤ 4096)) }
{
    1 <= len && len <= Name::MAX_LEN
}

impl Name {
    ghost use Rattle.name_index.specs.Name.{IsName, HasBadLength, name_of_token};

    /// The most bytes that a name has.
    pub const MAX_LEN: usize = 4096;

    /// The name with this text. It is `BadName` exactly where the length isn't 1 to 4,096 bytes.
    pub fn new(alloc: Global, text: &str) -> Result<Name, NameFault>
        ensures ok { IfOk result (λ name. name ≡ text.now) }
        ensures is_name { OnOk result (IsName text.now) }
        ensures bad_name { IsErrOf result NameFault.BadName ↔ HasBadLength text.now }
    {
        if !is_name_length(text.len()) {
            return Err(NameFault::BadName);
        }
        let text = KeptText::new(alloc, text)?;
        Ok(Name { alloc, text })
    }

    /// The text of the name.
    pub fn text(&self) -> &str
        ensures value { result.now ≡ self.now }
        ensures is_name { IsName self.now }
    {
        self.text.as_str()
    }

    /// The name that a token of a script stands for: `%XX` is the byte with these hexadecimal
    /// digits, and any other `%` stands for itself. There is none exactly where the decoded bytes
    /// aren't UTF-8 or not 1 to 4,096.
    pub fn unescape(alloc: Global, token: &[u8]) -> Result<Option<Name>, Memory>
        ensures value { IfOk result (λ found. found ≡ name_of_token token.now) }
        ensures is_name { IfOk result (λ found. IfSome found IsName) }
    {
        let mut bytes = Vec::new(alloc);
        percent_decode(token).append_to(&mut bytes)?;
        if !is_name_length(bytes.len()) {
            return Ok(None);
        }
        match String::from_utf8(bytes) {
            Ok(text) => Ok(Some(Name {
                alloc,
                text: KeptText::Long(text),
            })),
            Err(_) => Ok(None),
        }
    }

    /// The name as a token of a script: the bytes 0 to 32, 127, `%` and every byte past 127 become
    /// `%XX` in upper case. A token so written reads back as the name.
    pub fn escape(&self) -> Result<Text, Memory>
        ensures value { IfOk result (λ token. token ≡ escaped self.now) }
        ensures is_name { IsName self.now }
        ensures graphic { All (λ b. (33 ≤ b) × (b ≤ 126)) (escaped self.now) }
        ensures decodes { percent_decoded (escaped self.now) ≡ self.now }
        ensures reads_back { name_of_token (escaped self.now) ≡ Some self.now }
    {
        let mut token = String::new(self.alloc);
        utf8_percent_encode(self.text(), ESCAPED).append_to(&mut token)?;
        Ok(Text::from_vec(token.into_bytes()))
    }
}

impl fmt::Debug for Name {
    fn fmt<W: fmt::Write>(&self, f: &mut fmt::Formatter<W>) -> fmt::Result {
        f.debug_struct("Name").field("text", &self.text()).finish()
    }
}

impl Duplicate for Name {
    fn copy(&self) -> Result<Name, Memory> {
        let text = KeptText::new(self.alloc, self.text())?;
        Ok(Name {
            alloc: self.alloc,
            text,
        })
    }
}

impl PartialEq for Name {
    ghost eq = { bytes_eq };

    ghost laws = { partial_equiv_from_equiv nat_list_eq_equiv };

    fn eq(&self, other: &Name) -> bool {
        self.text() == other.text()
    }
}

impl Eq for Name {
    ghost laws = { nat_list_eq_equiv };
}

impl Hash for Name {
    ghost use Rattle.std.proofs.Common.{ap};
    ghost use Rattle.std.specs.Cmp.Lexicographic.{bytes_decides};

    ghost hash_input = { fed.str };

    ghost respects_eq = { λ a b same. ap fed.str ((bytes_decides a b).0 same) };

    fn hash<H: Hasher>(&self, state: &mut H) {
        self.text().hash(state);
    }
}
