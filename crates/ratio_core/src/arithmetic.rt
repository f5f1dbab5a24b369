// Sums, products and quotients, exact or refused.
ghost use Rattle.std.specs.Prelude.{◌≡◌, ◌≢◌, ◌<◌, ◌^◌, ◌↔◌, ◌+ℤ◌, OkIff, IsOkUnless, unsigned_abs, IsTrue};
ghost use Rattle.ratio_core.specs.Gcd.{gcd};
ghost use Rattle.ratio_core.specs.Rational.{Fits, SumFits, abs_ℚ, inverse_ℚ, neg_ℚ, signed, zero_ℚ, ◌+ℚ◌, ◌-ℚ◌, ◌*ℚ◌, ◌/ℚ◌};

use crate::divisor::{GREATEST_PART, greatest_common_divisor, product, quotient};
use crate::fault::RatioFault;
use crate::fraction::Ratio;

impl Ratio {
    /// The sum, or `Overflow` where a step of it has a part past 2^127 - 1: with the greatest
    /// common divisor g of the denominators of a/b and c/d, the steps are a*(d/g), c*(b/g), their
    /// sum s, and (b/g)*(d/gcd(s, g)).
    #[inline(always)]
    pub fn add(&self, other: &Ratio) -> Result<Ratio, RatioFault>
        ensures exact { OkIff result (SumFits self.now other.now) (self.now +ℚ other.now) }
        ensures err { IsOkUnless result RatioFault.Overflow }
    {
        if self.is_short_whole() && other.is_short_whole() {
            return Ok(self.add_short(other));
        }
        self.add_fractions(other)
    }

    fn add_fractions(&self, other: &Ratio) -> Result<Ratio, RatioFault>
        ensures exact { OkIff result (SumFits self.now other.now) (self.now +ℚ other.now) }
        ensures err { IsOkUnless result RatioFault.Overflow }
    {
        if self.are_narrow(other) {
            return Ok(self.add_narrow(other));
        }
        self.add_wide(other)
    }

    // Whether it is a whole number, and so short that the sum of two such numbers fits.
    #[inline]
    fn is_short_whole(&self) -> bool
        ensures whole { IsTrue result → self.now.den ≡ 1 }
        ensures short { IsTrue result → unsigned_abs self.now.num < 2 ^ 126 }
    {
        self.over() == 1 && is_short(self.num())
    }

    #[inline]
    fn add_short(&self, other: &Ratio) -> Ratio
        requires left { self.now.den ≡ 1 }
        requires right { other.now.den ≡ 1 }
        requires left_short { unsigned_abs self.now.num < 2 ^ 126 }
        requires right_short { unsigned_abs other.now.num < 2 ^ 126 }
        ensures fits { SumFits self.now other.now }
        ensures value { result ≡ self.now +ℚ other.now }
    {
        Ratio::keep(sum_of_shorts(self.num(), other.num()), 1)
    }

    fn add_wide(&self, other: &Ratio) -> Result<Ratio, RatioFault>
        ensures exact { OkIff result (SumFits self.now other.now) (self.now +ℚ other.now) }
        ensures err { IsOkUnless result RatioFault.Overflow }
    {
        let (left_den, right_den) = (self.over(), other.over());
        let common = greatest_common_divisor(left_den, right_den);
        let left_over = quotient(left_den, common);
        let right_over = quotient(right_den, common);
        let left = product(self.size(), right_over)?;
        let right = product(other.size(), left_over)?;
        let (is_negative, size) = signed_sum(self.is_negative(), left, other.is_negative(), right);
        if size > GREATEST_PART {
            return Err(RatioFault::Overflow);
        }
        let last = last_wide_divisor(size, common);
        let den = product(left_over, quotient(right_den, last))?;
        Ok(Ratio::store(is_negative, quotient(size, last), den))
    }

    /// The sum with the negated number.
    pub fn sub(&self, other: &Ratio) -> Result<Ratio, RatioFault>
        ensures exact { OkIff result (SumFits self.now (neg_ℚ other.now)) (self.now -ℚ other.now) }
        ensures err { IsOkUnless result RatioFault.Overflow }
    {
        self.add(&other.neg())
    }

    /// The product, or `Overflow` exactly where it doesn't fit.
    #[inline(always)]
    pub fn mul(&self, other: &Ratio) -> Result<Ratio, RatioFault>
        ensures exact { OkIff result (Fits (self.now *ℚ other.now)) (self.now *ℚ other.now) }
        ensures err { IsOkUnless result RatioFault.Overflow }
    {
        if self.is_narrow_whole() && other.is_narrow_whole() {
            return Ok(self.mul_whole(other));
        }
        self.mul_fractions(other)
    }

    fn mul_fractions(&self, other: &Ratio) -> Result<Ratio, RatioFault>
        ensures exact { OkIff result (Fits (self.now *ℚ other.now)) (self.now *ℚ other.now) }
        ensures err { IsOkUnless result RatioFault.Overflow }
    {
        if self.are_narrow(other) {
            return Ok(self.mul_narrow(other));
        }
        self.mul_wide(other)
    }

    fn mul_wide(&self, other: &Ratio) -> Result<Ratio, RatioFault>
        ensures exact { OkIff result (Fits (self.now *ℚ other.now)) (self.now *ℚ other.now) }
        ensures err { IsOkUnless result RatioFault.Overflow }
    {
        let (left_size, left_den) = (self.size(), self.over());
        let (right_size, right_den) = (other.size(), other.over());
        let left = greatest_common_divisor(left_size, right_den);
        let right = greatest_common_divisor(right_size, left_den);
        let size = product(quotient(left_size, left), quotient(right_size, right))?;
        let den = product(quotient(left_den, right), quotient(right_den, left))?;
        let is_negative = self.is_negative() != other.is_negative();
        Ok(Ratio::store(is_negative, size, den))
    }

    /// The quotient, or `Overflow` exactly where it doesn't fit.
    pub fn div(&self, other: &Ratio) -> Result<Ratio, RatioFault>
        ensures exact { OkIff result
            ((other.now ≢ zero_ℚ) × Fits (self.now /ℚ other.now))
            (self.now /ℚ other.now) }
        ensures zero { (result ≡ Err RatioFault.ZeroDenominator) ↔ (other.now ≡ zero_ℚ) }
    {
        if other.is_zero() {
            return Err(RatioFault::ZeroDenominator);
        }
        self.mul(&other.inverse())
    }

    /// The magnitude.
    pub fn abs(&self) -> Ratio
        ensures { result ≡ abs_ℚ self.now }
    {
        Ratio::store(false, self.size(), self.over())
    }

    fn inverse(&self) -> Ratio
        requires { self.now ≢ zero_ℚ }
        ensures { result ≡ inverse_ℚ self.now }
    {
        Ratio::store(self.is_negative(), self.over(), self.size())
    }
}

// 2^125.
const SHORT: i128 = 42535295865117307932921825928971026432;

#[inline]
fn is_short(n: i128) -> bool
    ensures { IsTrue result → unsigned_abs n < 2 ^ 126 }
{
    -SHORT <= n && n < SHORT
}

#[inline]
fn sum_of_shorts(a: i128, b: i128) -> i128
    requires left { unsigned_abs a < 2 ^ 126 }
    requires right { unsigned_abs b < 2 ^ 126 }
    ensures value { result ≡ a +ℤ b }
    ensures fits { unsigned_abs result < 2 ^ 127 }
{
    a + b
}

// The greatest common divisor of a sum and the divisor of its denominators.
#[inline]
#[tactic(auto, using(crate::specs::Gcd::remainders))]
fn last_wide_divisor(size: u128, common: u128) -> u128
    requires { 0 < common }
    ensures value { result ≡ gcd size common }
    ensures positive { 0 < result }
{
    if common == 1 {
        return 1;
    }
    greatest_common_divisor(size, common)
}

// The sign and the size of the sum of two numbers, by theirs.
fn signed_sum(
    left_is_negative: bool,
    left: u128,
    right_is_negative: bool,
    right: u128,
) -> (bool, u128)
    requires left_fits { left < 2 ^ 127 }
    requires right_fits { right < 2 ^ 127 }
    ensures { signed result.0 result.1
        ≡ signed left_is_negative left +ℤ signed right_is_negative right }
{
    if left_is_negative == right_is_negative {
        (left_is_negative, left + right)
    } else if left >= right {
        (left_is_negative, left - right)
    } else {
        (right_is_negative, right - left)
    }
}
