// The fraction itself: how it is kept, made and read.
ghost use Rattle.std.specs.Prelude.{◌≡◌, ◌≢◌, ◌<◌, ◌^◌, ◌↔◌, pos, unsigned_abs, IsTrue, OkIff, IsOkUnless};
ghost use Rattle.std.specs.Int.{is_negative};
ghost use Rattle.ratio_core.specs.Rational.{Fits, IsStored, fraction, neg_ℚ, one_ℚ, reduce, sign_ℚ, signed, zero_ℚ};

use crate::divisor::{GREATEST_PART, greatest_common_divisor, quotient};
use crate::fault::RatioFault;
use std::marker::Model;

/// A fraction in lowest terms with a positive denominator. Both parts are at most 2^127 - 1 in
/// magnitude.
#[derive(Clone, Copy)]
pub struct Ratio {
    num: i128,
    den: u128,
}

impl Model for Ratio {
    ghost use Rattle.ratio_core.specs.Rational.{IsStored, Rational, rational_code, reduce};
    ghost use Rattle.ratio_core.specs.RationalLaws.{reduce_reduced};

    ghost Value = { Rational };

    ghost coded = { rational_code };

    ghost view = { λ a. reduce a.num a.den };

    ghost invariant = { λ a. IsStored a.num a.den };

    ghost inverse = { λ q. record { num = q.num; den = q.den } };

    ghost inverse_ok = { λ a h i. record {
      num = (reduce_reduced a.num a.den h.reduced i).0;
      den = (reduce_reduced a.num a.den h.reduced i).1;
    } };
}

impl Ratio {
    /// `n` over `d` in lowest terms.
    pub fn new(n: i128, d: i128) -> Result<Ratio, RatioFault>
        ensures exact { OkIff result ((d ≢ pos 0) × Fits (fraction n d)) (fraction n d) }
        ensures zero { (result ≡ Err RatioFault.ZeroDenominator) ↔ (d ≡ pos 0) }
    {
        if d == 0 {
            return Err(RatioFault::ZeroDenominator);
        }
        Ratio::lowest((n < 0) != (d < 0), n.unsigned_abs(), d.unsigned_abs())
    }

    /// The number 0.
    pub fn zero() -> Ratio
        ensures { result ≡ zero_ℚ }
    {
        Ratio { num: 0, den: 1 }
    }

    /// The number 1.
    pub fn one() -> Ratio
        ensures { result ≡ one_ℚ }
    {
        Ratio { num: 1, den: 1 }
    }

    /// The numerator in lowest terms.
    pub fn num(&self) -> i128
        ensures value { result ≡ self.now.num }
        ensures fits { Fits self.now }
    {
        self.num
    }

    /// The denominator in lowest terms.
    pub fn den(&self) -> i128
        ensures value { result ≡ pos self.now.den }
        ensures fits { Fits self.now }
    {
        self.den as i128
    }

    /// 1, 0 or -1.
    pub fn sign(&self) -> i8
        ensures { result ≡ sign_ℚ self.now }
    {
        self.num().signum() as i8
    }

    /// Whether the number is 0.
    pub fn is_zero(&self) -> bool
        ensures { IsTrue result ↔ (self.now ≡ zero_ℚ) }
    {
        self.size() == 0
    }

    /// The number with the other sign. It always fits, since the magnitude stays.
    pub fn neg(&self) -> Ratio
        ensures { result ≡ neg_ℚ self.now }
    {
        Ratio {
            num: -self.num,
            den: self.den,
        }
    }

    pub(crate) fn is_negative(&self) -> bool
        ensures { result ≡ is_negative self.now.num }
    {
        self.num < 0
    }

    // The numerator's magnitude.
    pub(crate) fn size(&self) -> u128
        ensures value { result ≡ unsigned_abs self.now.num }
        ensures fits { result < 2 ^ 127 }
    {
        self.num.unsigned_abs()
    }

    // The denominator.
    pub(crate) fn over(&self) -> u128
        ensures value { result ≡ self.now.den }
        ensures positive { 0 < result }
        ensures fits { result < 2 ^ 127 }
    {
        self.den
    }

    // The number of this sign, size and denominator, which are in lowest terms.
    pub(crate) fn store(is_negative: bool, size: u128, den: u128) -> Ratio
        requires { IsStored (signed is_negative size) den }
        ensures { result ≡ reduce (signed is_negative size) den }
    {
        let num = if is_negative {
            -(size as i128)
        } else {
            size as i128
        };
        Ratio { num, den }
    }

    // The number of these parts, which are in lowest terms.
    pub(crate) fn keep(num: i128, den: u128) -> Ratio
        requires { IsStored num den }
        ensures { result ≡ reduce num den }
    {
        Ratio { num, den }
    }

    // The number of this sign, of any size and denominator, in lowest terms.
    pub(crate) fn lowest(is_negative: bool, size: u128, den: u128) -> Result<Ratio, RatioFault>
        requires { 0 < den }
        ensures exact { OkIff result
            (Fits (reduce (signed is_negative size) den))
            (reduce (signed is_negative size) den) }
        ensures err { IsOkUnless result RatioFault.Overflow }
    {
        let common = greatest_common_divisor(size, den);
        let (size, den) = (quotient(size, common), quotient(den, common));
        if size > GREATEST_PART || den > GREATEST_PART {
            return Err(RatioFault::Overflow);
        }
        Ok(Ratio::store(is_negative, size, den))
    }
}
