//! Fractions below 1 in lowest terms, made of the digits behind a point from the last one on.
ghost use Rattle.std.specs.Prelude.{◌≡◌, ◌*◌, ◌^◌, ◌<◌};
ghost use Rattle.ratio_core.specs.Gcd.{gcd};

use crate::digits::GREATEST_PART;

/// A fraction from 0 up to 1 in lowest terms.
#[derive(Clone, Copy)]
pub(crate) struct Tenths {
    pub(crate) num: u128,
    pub(crate) den: u128,
    ghost lowest: { gcd num den ≡ 1 },
    ghost below_one: { num < den },
    ghost fits: { den < 2 ^ 127 },
}

impl Tenths {
    ghost use Rattle.std.specs.Prelude.{◌+◌, ◌≤◌, length};
    ghost use Rattle.std.specs.Str.Parse.{AllDigits, digits_value};
    ghost use Rattle.mof_text.specs.Tenths.{TellsFraction};

    #[tactic(auto, unfolding(ratio_core::specs::Gcd::gcd))]
    pub(crate) fn zero() -> Tenths
        ensures num { result.num ≡ 0 }
        ensures den { result.den ≡ 1 }
    {
        Tenths { num: 0, den: 1 }
    }

    // This number of tenths.
    #[tactic(auto, unfolding(ratio_core::specs::Gcd::gcd))]
    fn of_digit(digit: u128) -> Tenths
        requires { digit < 10 }
        ensures value { result.num * 10 ≡ digit * result.den }
        ensures small { result.den ≤ 10 }
    {
        match digit {
            0 => Tenths { num: 0, den: 1 },
            1 => Tenths { num: 1, den: 10 },
            2 => Tenths { num: 1, den: 5 },
            3 => Tenths { num: 3, den: 10 },
            4 => Tenths { num: 2, den: 5 },
            5 => Tenths { num: 1, den: 2 },
            6 => Tenths { num: 3, den: 5 },
            7 => Tenths { num: 7, den: 10 },
            8 => Tenths { num: 4, den: 5 },
            _ => Tenths { num: 9, den: 10 },
        }
    }

    // The digit and these digits behind it.
    fn behind(self, digit: u128) -> Option<Tenths>
        requires { digit < 10 }
        ensures { TellsFraction (digit * self.den + self.num) (10 * self.den) result }
    {
        // digit * den + num is 10 * tens + low % 10; every step fits.
        let low = digit * (self.den % 10) + self.num % 10;
        let tens = digit * (self.den / 10) + self.num / 10 + low / 10;
        let unit = Tenths::of_digit(low % 10);
        if self.den > GREATEST_PART / unit.den {
            return None;
        }
        Some(Tenths {
            num: tens * unit.den + unit.num,
            den: unit.den * self.den,
        })
    }

    /// The digits, and these behind them: `None` exactly where the denominator passes 2^127 - 1.
    pub(crate) fn behind_all(self, digits: &[u8]) -> Option<Tenths>
        requires { AllDigits 10 digits.now }
        ensures { TellsFraction (digits_value 10 digits.now * self.den + self.num)
            (10 ^ length digits.now * self.den) result }
    {
        let mut fraction = self;
        let mut place = digits.len();
        while place > 0 {
            place -= 1;
            fraction = fraction.behind(u128::from(digits[place] - b'0'))?;
        }
        Some(fraction)
    }
}
