//! Affine functions of keys.
ghost use Rattle.std.specs.Prelude.{◌≡◌, IfOk, length, slice_get};
ghost use Rattle.aff_core.specs.Rising.{RiseBy};
ghost use Rattle.aff_core.specs.Terms.{HaveNoZero};

use crate::Key;
use crate::terms::nonzero_terms;
use ratio_core::{Memory, Ratio};
use std::alloc::Global;
use std::marker::Model;

/// An affine function: the nonzero coefficients of keys, and a constant.
#[derive(Debug, Drop)]
pub struct AffineFunction<K: Key> {
    terms: Vec<(K, Ratio)>,
    constant: Ratio,
}

impl<K: Key> Model for AffineFunction<K> {
    ghost Value = { K.Functions };

    ghost coded = { K.Functions.code };

    ghost view = { λ a. K.function_of a.terms.items a.constant };

    ghost invariant = { λ a. RiseBy K.cmp a.terms.items × HaveNoZero a.terms.items };
}

impl<K: Key> AffineFunction<K> {
    /// The function of these terms, of which those with the coefficient 0 are left out.
    pub fn from_terms(
        alloc: Global,
        terms: &[(K, Ratio)],
        constant: Ratio,
    ) -> Result<AffineFunction<K>, Memory>
        requires { RiseBy K.cmp terms.now }
        ensures { IfOk result (λ f. f ≡ K.function_of terms.now constant) }
    {
        Ok(AffineFunction::of(nonzero_terms(alloc, terms)?, constant))
    }

    // The function of terms in the order of their keys, none of which is zero.
    pub(crate) fn of(terms: Vec<(K, Ratio)>, constant: Ratio) -> AffineFunction<K>
        requires rising { RiseBy K.cmp terms.items }
        requires nonzero { HaveNoZero terms.items }
        ensures { result ≡ K.function_of terms.items constant }
    {
        AffineFunction { terms, constant }
    }

    // The memory that the function is kept in.
    pub(crate) fn allocator(&self) -> Global {
        *self.terms.allocator()
    }

    /// The terms, in the order of their keys.
    pub fn terms(&self) -> &[(K, Ratio)]
        ensures all { result.now ≡ K.terms_of self.now }
        ensures rising { RiseBy K.cmp (K.terms_of self.now) }
        ensures nonzero { HaveNoZero (K.terms_of self.now) }
    {
        &self.terms
    }

    /// The number of terms.
    pub fn term_count(&self) -> usize
        ensures { result ≡ length (K.terms_of self.now) }
    {
        self.terms().len()
    }

    /// The term at a place in the order of keys, and `None` past the last.
    pub fn term(&self, n: usize) -> Option<(K, Ratio)>
        ensures { result ≡ slice_get (K.terms_of self.now) n }
    {
        self.terms().get(n).copied()
    }

    pub fn constant(&self) -> Ratio
        ensures { result ≡ K.constant_of self.now }
    {
        self.constant
    }
}
