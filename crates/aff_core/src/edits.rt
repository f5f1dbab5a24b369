//! Affine functions with one coefficient changed.
ghost use Rattle.std.specs.Prelude.{◌≡◌, ◌++◌, IfOk};
ghost use Rattle.aff_core.specs.Function.{with_coefficient, HasCoefficient};
ghost use Rattle.aff_core.specs.Kept.{IsSpanOf};

use crate::{Address, Aff};
use ratio_core::{Memory, Ratio};
use std::alloc::Global;

impl Aff {
    /// The function with this coefficient at an address, where 0 removes the term.
    pub fn with_coef(&self, at: &Address, value: Ratio) -> Result<Aff, Memory>
        ensures same { IfOk result (λ f. f ≡ with_coefficient self.now at.now value) }
        ensures coefficients { IfOk result (HasCoefficient self.now at.now value) }
    {
        match self.place(at) {
            Ok(n) => self.replaced(n, 1, at, value),
            Err(n) => self.replaced(n, 0, at, value),
        }
    }

    // The function with a term of the address, or with none, in place of those of a span.
    fn replaced(&self, from: usize, count: usize, at: &Address, value: Ratio) -> Result<Aff, Memory>
        requires { IsSpanOf self.now at.now from count }
        ensures { IfOk result (λ f. f ≡ with_coefficient self.now at.now value) }
    {
        let terms = self.terms();
        let (before, after) = (&terms[..from], &terms[from + count..]);
        let alloc = self.allocator();
        if value.is_zero() {
            return Ok(Aff::of(joined(alloc, before, &[], after)?, self.constant()));
        }
        let terms = joined(alloc, before, &[(*at, value)], after)?;
        Ok(Aff::of(terms, self.constant()))
    }
}

// The terms of three lists, one list after the other.
fn joined(
    alloc: Global,
    before: &[(Address, Ratio)],
    between: &[(Address, Ratio)],
    after: &[(Address, Ratio)],
) -> Result<Vec<(Address, Ratio)>, Memory>
    ensures { IfOk result (λ v. v.items ≡ before.now ++ (between.now ++ after.now)) }
{
    let mut joined = Vec::with_capacity(alloc, before.len() + between.len() + after.len())?;
    joined.extend_from_slice(before)?;
    joined.extend_from_slice(between)?;
    joined.extend_from_slice(after)?;
    Ok(joined)
}
