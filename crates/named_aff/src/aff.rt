//! Affine functions by name, and lists of them.
use crate::NamedTerms;
use lists::{Duplicate, Memory, Sequence};
use ratio_core::Ratio;

/// A scalar affine function by name: the sum of its terms and its constant.
#[derive(Debug, Drop)]
pub struct NamedAff {
    pub terms: NamedTerms,
    pub constant: Ratio,
}

/// A vector affine function by name: one function a component.
pub type NamedVec = Sequence<NamedAff>;

impl Duplicate for NamedAff {
    fn copy(&self) -> Result<NamedAff, Memory> {
        Ok(NamedAff {
            terms: self.terms.copy()?,
            constant: self.constant,
        })
    }
}
