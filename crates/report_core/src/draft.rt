//! Text in the making.
ghost use Rattle.std.specs.Prelude.{◌≡◌, [], ◌++◌, OnOk, decimal};
ghost use Rattle.item_core.specs.Kind.{name_of};
ghost use Rattle.name_index.specs.Escape.{escaped};
ghost use Rattle.ratio_core.specs.Text.{text_of};

use item_core::Kind;
use lists::Sequence;
use name_index::{Name, Text};
use ratio_core::{Memory, Ratio};
use std::alloc::Global;
use std::marker::Model;

/// Text in the making. After `Memory` a part may stand there that isn't whole.
#[derive(Drop)]
pub struct Draft {
    alloc: Global,
    bytes: Vec<u8>,
}

impl Model for Draft {
    ghost use Rattle.std.specs.Prelude.{List, ℕ};

    ghost Value = { List ℕ };

    ghost view = { λ draft. draft.bytes.items };
}

impl Draft {
    /// A text without bytes.
    pub fn new(alloc: Global) -> Draft
        ensures { result ≡ [] }
    {
        Draft {
            alloc,
            bytes: Vec::new(alloc),
        }
    }

    /// Appends a text as it is.
    pub fn push(&mut self, text: &str) -> Result<(), Memory>
        ensures { OnOk result (self.new ≡ self.old ++ text.now) }
    {
        self.push_bytes(text.as_bytes())
    }

    /// Appends bytes as they are.
    pub fn push_bytes(&mut self, bytes: &[u8]) -> Result<(), Memory>
        ensures { OnOk result (self.new ≡ self.old ++ bytes.now) }
    {
        self.bytes.extend_from_slice(bytes)?;
        Ok(())
    }

    /// Appends a count in decimal digits.
    pub fn push_number(&mut self, number: u128) -> Result<(), Memory>
        ensures { OnOk result (self.new ≡ self.old ++ decimal number) }
    {
        let text = number.to_string(self.alloc)?;
        self.push_bytes(text.as_bytes())
    }

    /// Appends a fraction as it is printed: `-3` or `22/7`, in lowest terms.
    pub fn push_ratio(&mut self, number: &Ratio) -> Result<(), Memory>
        ensures { OnOk result (self.new ≡ self.old ++ text_of number.now) }
    {
        number.print(&mut self.bytes)
    }

    /// Appends a name with its escapes, so that it is one token.
    pub fn push_name(&mut self, name: &Name) -> Result<(), Memory>
        ensures { OnOk result (self.new ≡ self.old ++ escaped name.now) }
    {
        let token = name.escape()?;
        self.push_bytes(token.as_slice())
    }

    /// Appends a kind, such as `affine:LessThan` or `free`.
    #[tactic(auto, using(crate::proofs::Texts::joined_alone, crate::proofs::Texts::joined_both))]
    pub fn push_kind(&mut self, kind: Kind) -> Result<(), Memory>
        ensures { OnOk result (self.new ≡ self.old ++ name_of kind) }
    {
        self.push(kind.first().text())?;
        let second = kind.second().text();
        if second.is_empty() {
            return Ok(());
        }
        self.push(":")?;
        self.push(second)
    }

    /// The whole text.
    pub fn into_text(self) -> Text
        ensures { result ≡ self }
    {
        Sequence::from_vec(self.bytes)
    }
}
