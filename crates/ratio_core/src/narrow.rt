// Sums and products of fractions whose parts are below 2^63: they fit, and take 64 bits but for the
// parts of the result.
ghost use Rattle.std.specs.Prelude.{◌≡◌, ◌/◌, ◌%◌, ◌<◌, ◌^◌, ◌+ℤ◌, ◌*ℤ◌, pos, unsigned_abs, IsTrue};
ghost use Rattle.std.specs.Int.{is_negative};
ghost use Rattle.ratio_core.specs.Gcd.{gcd};
ghost use Rattle.ratio_core.specs.Narrow.{IsNarrow};
ghost use Rattle.ratio_core.specs.Rational.{Fits, SumFits, signed, ◌+ℚ◌, ◌*ℚ◌};

use crate::binary::narrow_divisor;
use crate::divisor::{NARROW, quotient};
use crate::fraction::Ratio;

// The greatest part of a narrow fraction.
const GREATEST_NARROW: u128 = i64::MAX as u128;

// 2^63.
const NARROW_END: i128 = 9223372036854775808;

impl Ratio {
    // Whether both are narrow: one test of all bits.
    #[inline]
    pub(crate) fn are_narrow(&self, other: &Ratio) -> bool
        ensures { IsTrue result → (IsNarrow self.now) × (IsNarrow other.now) }
    {
        let sizes = self.size() | other.size();
        let dens = self.over() | other.over();
        (sizes | dens) <= GREATEST_NARROW
    }

    #[inline]
    pub(crate) fn add_narrow(&self, other: &Ratio) -> Ratio
        requires left { IsNarrow self.now }
        requires right { IsNarrow other.now }
        ensures fits { SumFits self.now other.now }
        ensures value { result ≡ self.now +ℚ other.now }
    {
        let (left_den, right_den) = (self.narrow_over(), other.narrow_over());
        let common = narrow_divisor(left_den, right_den);
        let left_over = narrow_quotient(left_den, common);
        let right_over = narrow_quotient(right_den, common);
        let sum = sum_of_products(self.narrow_num(), right_over, other.narrow_num(), left_over);
        let last = last_divisor(sum.unsigned_abs(), common);
        let den = left_over as u128 * narrow_quotient(right_den, last) as u128;
        Ratio::keep(signed_quotient(sum, last), den)
    }

    #[inline]
    pub(crate) fn mul_narrow(&self, other: &Ratio) -> Ratio
        requires left { IsNarrow self.now }
        requires right { IsNarrow other.now }
        ensures fits { Fits (self.now *ℚ other.now) }
        ensures value { result ≡ self.now *ℚ other.now }
    {
        let (left_size, left_den) = (self.narrow_size(), self.narrow_over());
        let (right_size, right_den) = (other.narrow_size(), other.narrow_over());
        let left = narrow_divisor(left_size, right_den);
        let right = narrow_divisor(right_size, left_den);
        let size = narrow_quotient(left_size, left) as u128
            * narrow_quotient(right_size, right) as u128;
        let den = narrow_quotient(left_den, right) as u128
            * narrow_quotient(right_den, left) as u128;
        Ratio::store(self.is_negative() != other.is_negative(), size, den)
    }

    // Whether it is a narrow whole number.
    #[inline]
    pub(crate) fn is_narrow_whole(&self) -> bool
        ensures whole { IsTrue result → self.now.den ≡ 1 }
        ensures narrow { IsTrue result → IsNarrow self.now }
    {
        self.over() == 1 && is_narrow_part(self.num())
    }

    #[inline]
    pub(crate) fn mul_whole(&self, other: &Ratio) -> Ratio
        requires left { self.now.den ≡ 1 }
        requires right { other.now.den ≡ 1 }
        requires left_narrow { IsNarrow self.now }
        requires right_narrow { IsNarrow other.now }
        ensures fits { Fits (self.now *ℚ other.now) }
        ensures value { result ≡ self.now *ℚ other.now }
    {
        Ratio::keep(product_of_narrows(self.narrow_num(), other.narrow_num()), 1)
    }

    #[inline]
    fn narrow_num(&self) -> i64
        requires { IsNarrow self.now }
        ensures { result ≡ self.now.num }
    {
        self.num() as i64
    }

    #[inline]
    fn narrow_size(&self) -> u64
        requires { IsNarrow self.now }
        ensures { result ≡ unsigned_abs self.now.num }
    {
        self.size() as u64
    }

    #[inline]
    fn narrow_over(&self) -> u64
        requires { IsNarrow self.now }
        ensures value { result ≡ self.now.den }
        ensures positive { 0 < result }
    {
        self.over() as u64
    }
}

#[inline]
fn narrow_quotient(a: u64, by: u64) -> u64
    requires { 0 < by }
    ensures { result ≡ a / by }
{
    if by == 1 { a } else { a / by }
}

// `a * by + b * over`.
#[inline]
fn sum_of_products(a: i64, by: u64, b: i64, over: u64) -> i128
    requires by { by < 2 ^ 63 }
    requires over { over < 2 ^ 63 }
    ensures value { result ≡ (a *ℤ pos by) +ℤ (b *ℤ pos over) }
    ensures fits { unsigned_abs result < 2 ^ 127 }
{
    product_of(a, by) + product_of(b, over)
}

#[inline]
fn product_of(a: i64, by: u64) -> i128
    requires { by < 2 ^ 63 }
    ensures value { result ≡ a *ℤ pos by }
    ensures fits { unsigned_abs result < 2 ^ 126 }
{
    a as i128 * by as i128
}

// Compares the number itself, which takes fewer steps than its magnitude does.
#[inline]
fn is_narrow_part(n: i128) -> bool
    ensures { IsTrue result → unsigned_abs n < 2 ^ 63 }
{
    -NARROW_END < n && n < NARROW_END
}

#[inline]
fn product_of_narrows(a: i64, b: i64) -> i128
    ensures { result ≡ a *ℤ b }
{
    a as i128 * b as i128
}

// The greatest common divisor of a sum and the divisor of its denominators.
#[inline]
#[tactic(auto, using(crate::specs::Gcd::remainders))]
fn last_divisor(size: u128, common: u64) -> u64
    requires { 0 < common }
    ensures value { result ≡ gcd size common }
    ensures positive { 0 < result }
{
    if common == 1 {
        return 1;
    }
    narrow_divisor(remainder(size, common), common)
}

#[inline]
fn remainder(a: u128, by: u64) -> u64
    requires { 0 < by }
    ensures { result ≡ a % by }
{
    if a <= NARROW {
        a as u64 % by
    } else {
        (a % by as u128) as u64
    }
}

// The quotient of the magnitude, with the sign.
#[inline]
fn signed_quotient(a: i128, by: u64) -> i128
    requires positive { 0 < by }
    requires fits { unsigned_abs a < 2 ^ 127 }
    ensures { result ≡ signed (is_negative a) (unsigned_abs a / by) }
{
    if by == 1 {
        return a;
    }
    let size = quotient(a.unsigned_abs(), by as u128);
    if a < 0 { -(size as i128) } else { size as i128 }
}
