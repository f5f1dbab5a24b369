//! Affine functions that are added up.
ghost use Rattle.std.specs.Prelude.{◌≡◌, [], IfOk, Some, None, if◌then◌else◌};
ghost use Rattle.named_aff.specs.Sums.{plus_constant, plus_term};

use crate::sum::{TermSum, added};
use crate::{NamedAff, NamedTerm};
use lists::Memory;
use ratio_core::Ratio;
use std::alloc::Global;
use std::marker::Model;

/// An affine function in the making, which contracts see as the function so far.
#[derive(Drop)]
pub struct AffSum {
    terms: TermSum,
    constant: Ratio,
}

impl Model for AffSum {
    ghost use Rattle.named_aff.specs.declared.aff.NamedAff.{NamedAff};

    ghost Value = { NamedAff };

    ghost view = { λ sum. record { terms = sum.terms; constant = sum.constant } };
}

impl AffSum {
    /// A constant alone, which takes no memory.
    pub fn of_constant(alloc: Global, constant: Ratio) -> AffSum
        ensures { result ≡ record { terms = []; constant = constant } }
    {
        AffSum {
            terms: TermSum::new(alloc),
            constant,
        }
    }

    /// Adds a term to that of its variable, or puts it last, and says whether the sum fits.
    pub fn add_term(&mut self, term: NamedTerm) -> Result<bool, Memory>
        ensures { IfOk result (λ fits. plus_term self.old term
            ≡ (if fits then Some self.new else None)) }
    {
        self.terms.add(term)
    }

    /// Adds a number to the constant, and says whether the sum fits.
    pub fn add_constant(&mut self, value: &Ratio) -> bool
        ensures { plus_constant self.old value.now ≡ (if result then Some self.new else None) }
    {
        match added(&self.constant, value) {
            Some(sum) => {
                self.constant = sum;
                true
            }
            None => false,
        }
    }

    /// The function.
    pub fn into_function(self, alloc: Global) -> Result<NamedAff, Memory>
        ensures { IfOk result (λ function. function ≡ self) }
    {
        let terms = self.terms.into_terms(alloc)?;
        Ok(NamedAff {
            terms,
            constant: self.constant,
        })
    }
}
