//! Terms by name, in the order of first mention.
ghost use Rattle.std.specs.Prelude.{◌≡◌, [], ◌∷◌, ◌++◌, IfOk, IfErr, OnOk, OnErr, length, slice_get};
ghost use Rattle.std.specs.Option.{option_copied};
ghost use Rattle.named_aff.specs.Distinct.{HasDistinctNames};

use lists::{Duplicate, Memory, Sequence};
use name_index::Name;
use ratio_core::Ratio;
use std::alloc::Global;
use std::marker::Model;

/// A coefficient, which may be 0, and the variable that it stands at.
#[derive(Debug, Drop)]
pub struct NamedTerm {
    pub variable: Name,
    pub coefficient: Ratio,
}

impl Duplicate for NamedTerm {
    fn copy(&self) -> Result<NamedTerm, Memory> {
        let variable = self.variable.copy()?;
        Ok(NamedTerm {
            variable,
            coefficient: self.coefficient,
        })
    }
}

/// Terms of distinct variables in the order of their first mention, which contracts see as the
/// list of them.
#[derive(Debug, Drop)]
pub struct NamedTerms {
    items: Sequence<NamedTerm>,
}

impl Model for NamedTerms {
    ghost use Rattle.std.specs.Prelude.{List};
    ghost use Rattle.named_aff.specs.declared.terms.NamedTerm.{NamedTerm};
    ghost use Rattle.named_aff.specs.Distinct.{HasDistinctNames};

    ghost Value = { List NamedTerm };

    ghost view = { λ terms. terms.items };

    ghost invariant = { λ terms. HasDistinctNames terms.items };
}

impl NamedTerms {
    /// No terms, which takes no memory.
    pub fn new(alloc: Global) -> NamedTerms
        ensures { result ≡ [] }
    {
        NamedTerms {
            items: Sequence::new(alloc),
        }
    }

    /// No terms, with room for this number.
    pub fn with_capacity(alloc: Global, count: usize) -> Result<NamedTerms, Memory>
        ensures { IfOk result (λ terms. terms ≡ []) }
    {
        let items = Vec::with_capacity(alloc, count)?;
        Ok(NamedTerms {
            items: Sequence::from_vec(items),
        })
    }

    /// Appends a term of a variable that has none yet. Without memory the term comes back.
    pub fn push(&mut self, term: NamedTerm) -> Result<(), (NamedTerm, Memory)>
        requires { HasDistinctNames (self.old ++ term ∷ []) }
        ensures ok { OnOk result (self.new ≡ self.old ++ term ∷ []) }
        ensures err { OnErr result (self.new ≡ self.old) }
        ensures handed_back { IfErr result (λ refused. refused.0 ≡ term) }
    {
        self.items.push(term)
    }

    /// How many terms there are.
    pub fn len(&self) -> usize
        ensures { result ≡ length self.now }
    {
        self.items.len()
    }

    /// The term at a place, and `None` past the last.
    pub fn get(&self, n: usize) -> Option<&NamedTerm>
        ensures { option_copied result ≡ slice_get self.now n }
    {
        self.items.get(n)
    }

    /// All terms. No two of them are of one variable.
    pub fn as_slice(&self) -> &[NamedTerm]
        ensures value { result.now ≡ self.now }
        ensures distinct { HasDistinctNames self.now }
    {
        self.items.as_slice()
    }
}

impl Duplicate for NamedTerms {
    fn copy(&self) -> Result<NamedTerms, Memory> {
        Ok(NamedTerms {
            items: self.items.copy()?,
        })
    }
}
