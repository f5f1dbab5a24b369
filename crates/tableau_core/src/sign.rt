//! The sign of a number, which is read off its numerator alone.
ghost use Rattle.std.specs.Prelude.{◌≡◌};
ghost use Rattle.ratio_core.specs.Rational.{zero_ℚ};
ghost use Rattle.simplex_form.specs.Turns.{is_below};

use ratio_core::Ratio;

/// Whether a number is below 0.
#[inline(always)]
pub fn is_negative(value: &Ratio) -> bool
    ensures { result ≡ is_below value.now zero_ℚ }
{
    value.num() < 0
}

/// Whether a number is above 0.
#[inline(always)]
pub fn is_positive(value: &Ratio) -> bool
    ensures { result ≡ is_below zero_ℚ value.now }
{
    value.num() > 0
}
