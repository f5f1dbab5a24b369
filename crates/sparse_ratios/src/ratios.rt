//! A list of numbers, of which those that aren't 0 are kept.
ghost use Rattle.std.specs.Prelude.{◌≡◌, ◌+◌, ◌-◌, ◌<◌, ◌≤◌, ℕ, [], ◌∷◌, ◌++◌, IfOk, OnErr, OnOk, length, replicate, slice_index_or};
ghost use Rattle.ratio_core.specs.Rational.{zero_ℚ};
ghost use Rattle.sparse_ratios.specs.Terms.{AreTerms, AreTermsSplit, HaveNoZeros, Puts, number_at};

use lists::Memory;
use ratio_core::Ratio;
use std::alloc::Global;
use std::marker::Model;

/// A list of numbers that are mostly 0. It takes memory for each of the others alone.
#[derive(Debug, Drop)]
pub struct SparseRatios {
    len: usize,
    // the numbers that aren't 0, each beside its place
    terms: Vec<(usize, Ratio)>,
}

impl Model for SparseRatios {
    ghost use Rattle.std.specs.Prelude.{List};
    ghost use Rattle.ratio_core.specs.Rational.{Rational};

    ghost Value = { List Rational };

    ghost use Rattle.sparse_ratios.specs.Kept.{AreTermsKept, numbers_in};

    ghost view = { numbers_in };

    ghost invariant = { AreTermsKept };
}

impl SparseRatios {
    /// No numbers, which takes no memory.
    pub fn new(alloc: Global) -> SparseRatios
        ensures { result ≡ [] }
    {
        SparseRatios {
            len: 0,
            terms: Vec::new(alloc),
        }
    }

    /// No numbers, with room for `count` that aren't 0.
    pub fn with_capacity(alloc: Global, count: usize) -> Result<SparseRatios, Memory>
        ensures { IfOk result (λ list. list ≡ []) }
    {
        let terms = Vec::with_capacity(alloc, count)?;
        Ok(SparseRatios { len: 0, terms })
    }

    /// These numbers.
    pub fn from_slice(alloc: Global, numbers: &[Ratio]) -> Result<SparseRatios, Memory>
        ensures { IfOk result (λ list. list ≡ numbers.now) }
    {
        let mut list = SparseRatios::new(alloc);
        for (place, number) in numbers.iter().enumerate() {
            list.put(place, *number)?;
        }
        Ok(list)
    }

    /// How many numbers there are, those that are 0 among them.
    pub fn len(&self) -> usize
        ensures { result ≡ length self.now }
    {
        self.len
    }

    /// Appends zeros, so that there are `len` numbers.
    pub fn pad(&mut self, len: usize)
        requires { length self.old ≤ len }
        ensures { self.new ≡ self.old ++ replicate (len - length self.old) zero_ℚ }
    {
        self.len = len;
    }

    /// Appends a number at a place, behind zeros up to there.
    pub fn put(&mut self, place: usize, number: Ratio) -> Result<(), Memory>
        requires { length self.old ≤ place }
        ensures ok { OnOk result (self.new
            ≡ (self.old ++ replicate (place - length self.old) zero_ℚ) ++ number ∷ []) }
        ensures err { OnErr result (self.new ≡ self.old) }
    {
        let len = length_to(place)?;
        push_term(&mut self.terms, place, number)?;
        self.len = len;
        Ok(())
    }

    /// The numbers that aren't 0, each beside its place.
    pub fn terms(&self) -> &[(usize, Ratio)]
        ensures terms { AreTerms 0 (length self.now) result.now }
        ensures nonzero { HaveNoZeros result.now }
        ensures numbers { (k : ℕ) → number_at result.now k ≡ slice_index_or self.now k zero_ℚ }
    {
        &self.terms
    }

    /// Those at the places from `from` on that are below `to`.
    pub fn terms_between(&self, from: usize, to: usize) -> &[(usize, Ratio)]
        ensures terms { AreTerms from to result.now }
        ensures nonzero { HaveNoZeros result.now }
        ensures numbers { (k : ℕ) → from ≤ k → k < to
            → number_at result.now k ≡ slice_index_or self.now k zero_ℚ }
    {
        let below = below(&self.terms, to);
        past(below, from)
    }
}

// How many numbers a list has that ends at a place.
fn length_to(place: usize) -> Result<usize, Memory>
    ensures { IfOk result (λ len. len ≡ place + 1) }
{
    match place.checked_add(1) {
        Some(len) => Ok(len),
        None => Err(Memory),
    }
}

// Puts a term last, where its number isn't 0.
fn push_term(terms: &mut Vec<(usize, Ratio)>, place: usize, number: Ratio) -> Result<(), Memory>
    ensures ok { OnOk result (Puts place number terms.old.items terms.new.items) }
    ensures err { OnErr result (terms.new.items ≡ terms.old.items) }
{
    if number.is_zero() {
        return Ok(());
    }
    terms.push((place, number))?;
    Ok(())
}

// The terms at places below this one.
fn below(terms: &[(usize, Ratio)], place: usize) -> &[(usize, Ratio)]
    ensures terms { (from to : ℕ) → AreTerms from to terms.now → AreTerms from place result.now }
    ensures nonzero { HaveNoZeros terms.now → HaveNoZeros result.now }
    ensures numbers { (from to k : ℕ) → AreTerms from to terms.now → k < place
        → number_at result.now k ≡ number_at terms.now k }
{
    &terms[..count_below(terms, place)]
}

// The others.
fn past(terms: &[(usize, Ratio)], place: usize) -> &[(usize, Ratio)]
    ensures terms { (from to : ℕ) → AreTerms from to terms.now → AreTerms place to result.now }
    ensures nonzero { HaveNoZeros terms.now → HaveNoZeros result.now }
    ensures numbers { (from to k : ℕ) → AreTerms from to terms.now → place ≤ k
        → number_at result.now k ≡ number_at terms.now k }
{
    &terms[count_below(terms, place)..]
}

// How many terms are at places below this one.
fn count_below(terms: &[(usize, Ratio)], place: usize) -> usize
    ensures within { result ≤ length terms.now }
    ensures split { (from to : ℕ) → AreTerms from to terms.now
        → AreTermsSplit place result terms.now }
{
    terms.partition_point(|(at, _)| *at < place)
}
