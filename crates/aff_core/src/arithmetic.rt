//! Values, multiples, sums and substitutions of affine functions.
ghost use Rattle.std.specs.Prelude.{◌≡◌, OkIff, IsOkUnless};
ghost use Rattle.ratio_core.specs.Answers.{ExactWhere};
ghost use Rattle.aff_core.specs.Function.{terms_of, value_of};
ghost use Rattle.aff_core.specs.Arithmetic.{HasEach, IsComposition, IsMultiple, IsSum, PlusFits, ProductsFit, SubstitutionFits, expression_at, number_at};
ghost use Rattle.aff_core.specs.Terms.{ValueFits};

use crate::folds::{add_products, plus_product};
use crate::terms::{scaled_terms, summed_terms};
use crate::{Aff, Exprs, Point};
use ratio_core::{NumberFault, Ratio};

impl Aff {
    /// The value at a point: the constant, and then each coefficient times its number, added in
    /// the order of addresses. `Overflow` exactly where a product or a sum doesn't fit.
    pub fn value(&self, at: &Point) -> Result<Ratio, NumberFault>
        requires { HasEach at.now self.now }
        ensures exact { OkIff result
            (ValueFits self.now.constant (terms_of self.now) (number_at at.now))
            (value_of self.now (number_at at.now)) }
        ensures err { IsOkUnless result NumberFault.Overflow }
    {
        let mut value = self.constant();
        for (address, coefficient) in self.terms() {
            let number = at.get(address).unwrap();
            value = plus_product(&value, coefficient, number)?;
        }
        Ok(value)
    }

    /// The function times a number. `Overflow` exactly where a product doesn't fit.
    pub fn scale(&self, by: &Ratio) -> Result<Aff, NumberFault>
        ensures { ExactWhere result (ProductsFit by.now self.now) (IsMultiple by.now self.now) }
    {
        let constant = by.mul(&self.constant())?;
        let terms = scaled_terms(self.allocator(), by, self.terms())?;
        Ok(Aff::of(terms, constant))
    }

    /// The sum of two functions. `Overflow` exactly where the sum of the constants, or that of
    /// the two coefficients of an address, doesn't fit.
    pub fn add(&self, other: &Aff) -> Result<Aff, NumberFault>
        ensures { ExactWhere result (PlusFits self.now other.now) (IsSum self.now other.now) }
    {
        let constant = self.constant().add(&other.constant())?;
        let terms = summed_terms(self.allocator(), self.terms(), other.terms())?;
        Ok(Aff::of(terms, constant))
    }

    /// The function with the expression of each address in its place: from the constant on, each
    /// coefficient times its expression is added in the order of addresses. `Overflow` exactly
    /// where a product or a sum doesn't fit.
    pub fn substitute(&self, by: &Exprs) -> Result<Aff, NumberFault>
        requires { HasEach by.now self.now }
        ensures { ExactWhere result (SubstitutionFits (expression_at by.now) self.now)
            (IsComposition (expression_at by.now) self.now) }
    {
        let mut sums = Point::new(self.allocator());
        let mut constant = self.constant();
        for (address, coefficient) in self.terms() {
            let expression = by.get(address).unwrap();
            constant = plus_product(&constant, coefficient, &expression.constant())?;
            add_products(&mut sums, coefficient, expression.terms())?;
        }
        Ok(Aff::of(sums.nonzero_terms(self.allocator())?, constant))
    }
}
