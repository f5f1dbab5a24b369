//! Affine functions of addresses.
ghost use Rattle.std.specs.Prelude.{◌≡◌, MatchResult, IfOk, OnErr, IsTrue, ◌↔◌};
ghost use Rattle.std.specs.FinMap as finite;
ghost use Rattle.aff_core.specs.Address.{address_cmp};
ghost use Rattle.aff_core.specs.Function.{HasEachTerm, IsNegated, coefficient, constant_function, gathered, negated, variable};
ghost use Rattle.aff_core.specs.FunctionEq.{function_eq, function_eq_equiv, function_eq_partial_equiv};
ghost use Rattle.aff_core.specs.Rising.{HasDistinctKeys};

use crate::terms::negated_terms;
use crate::{Address, AffineFunction, Point};
use lists::Duplicate;
use ratio_core::{Memory, Ratio};
use std::alloc::Global;

/// An affine function of addresses.
pub type Aff = AffineFunction<Address>;

impl Aff {
    ghost use Rattle.aff_core.specs.Kept.{IsTermPlace, IsAbsent, IsSpanOf};

    /// The function that is a number everywhere.
    pub fn constant_function(alloc: Global, constant: Ratio) -> Aff
        ensures { result ≡ constant_function constant }
    {
        Aff::of(Vec::new(alloc), constant)
    }

    /// The function that is an address's own number.
    pub fn variable(alloc: Global, at: &Address) -> Result<Aff, Memory>
        ensures { IfOk result (λ f. f ≡ variable at.now) }
    {
        Aff::from_terms(alloc, &[(*at, Ratio::one())], Ratio::zero())
    }

    /// The function of terms in any order, whose addresses are distinct.
    pub fn gather(alloc: Global, terms: &[(Address, Ratio)], constant: Ratio) -> Result<Aff, Memory>
        requires { HasDistinctKeys address_cmp terms.now }
        ensures same { IfOk result (λ f. f ≡ gathered terms.now constant) }
        ensures each { IfOk result (HasEachTerm terms.now) }
    {
        let terms = first_coefficients(alloc, terms)?.nonzero_terms(alloc)?;
        Ok(Aff::of(terms, constant))
    }

    /// The coefficient of an address, which is 0 where the function doesn't mention it.
    pub fn coef(&self, at: &Address) -> Ratio
        ensures { result ≡ coefficient self.now at.now }
    {
        match self.place(at) {
            Ok(n) => self.terms()[n].1,
            Err(_) => Ratio::zero(),
        }
    }

    /// Whether an address has a nonzero coefficient.
    pub fn mentions(&self, at: &Address) -> bool
        ensures { result ≡ finite.contains_key self.now.terms at.now }
    {
        self.place(at).is_ok()
    }

    /// The function with another constant.
    pub fn with_constant(&self, constant: Ratio) -> Result<Aff, Memory>
        ensures { IfOk result (λ f. f ≡ record self.now { constant = constant }) }
    {
        let terms = Vec::from_slice(self.allocator(), self.terms())?;
        Ok(Aff::of(terms, constant))
    }

    /// The function with each number negated.
    pub fn neg(&self) -> Result<Aff, Memory>
        ensures same { IfOk result (λ f. f ≡ negated self.now) }
        ensures numbers { IfOk result (IsNegated self.now) }
    {
        let terms = negated_terms(self.allocator(), self.terms())?;
        Ok(Aff::of(terms, self.constant().neg()))
    }

    // Where the address stands among the terms, or where it would.
    pub(crate) fn place(&self, at: &Address) -> Result<usize, usize>
        ensures found { IfOk result (IsTermPlace self.now at.now) }
        ensures absent { OnErr result (IsAbsent self.now at.now) }
        ensures span { MatchResult result
            (λ n. IsSpanOf self.now at.now n 1) (λ n. IsSpanOf self.now at.now n 0) }
    {
        self.terms()
            .binary_search_by(|(address, _)| address.cmp(at))
    }
}

// The first coefficient that each address has.
fn first_coefficients(alloc: Global, terms: &[(Address, Ratio)]) -> Result<Point, Memory>
    ensures { IfOk result (λ point. point ≡ finite.from_entries {R = address_cmp} terms.now) }
{
    let mut point = Point::new(alloc);
    for term in terms.iter().rev() {
        let Ok(_) = point.put(term.0, term.1) else {
            return Err(Memory);
        };
    }
    Ok(point)
}

impl Duplicate for Aff {
    fn copy(&self) -> Result<Aff, Memory> {
        self.with_constant(self.constant())
    }
}

impl PartialEq for Aff {
    ghost eq = { function_eq };

    ghost laws = { function_eq_partial_equiv };

    fn eq(&self, other: &Aff) -> bool
        ensures value { result ≡ function_eq self.now other.now }
        ensures same { IsTrue result ↔ (self.now ≡ other.now) }
    {
        self.constant() == other.constant() && self.terms() == other.terms()
    }
}

impl Eq for Aff {
    ghost laws = { function_eq_equiv };
}
