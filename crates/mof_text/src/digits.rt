//! Whole numbers that digits write.
ghost use Rattle.std.specs.Prelude.{◌≡◌, ◌^◌, ◌<◌, replicate};
ghost use Rattle.std.specs.Option.{SomeIff};
ghost use Rattle.std.specs.Str.Parse.{AllDigits, digits_value_after};
ghost use Rattle.mof_text.specs.Decimal.{are_zeros};

/// The greatest magnitude of a fraction's part, 2^127 - 1.
pub(crate) const GREATEST_PART: u128 = 170141183460469231731687303715884105727;

// More zeros than a number that fits has straight before or behind its point.
const ZEROS: [u8; 39] = [b'0'; 39];

/// This number of zeros.
pub(crate) fn zeros(count: usize) -> &'static [u8]
    requires { count < 39 }
    ensures { result.now ≡ replicate count 48 }
{
    &ZEROS[..count]
}

/// Whether the digits are zeros.
pub(crate) fn are_zeros(digits: &[u8]) -> bool
    ensures { result ≡ are_zeros digits.now }
{
    digits.iter().all(|digit| *digit == b'0')
}

/// The number that the digits write behind those of `first`, if it is at most 2^127 - 1.
pub(crate) fn value_after(first: u128, digits: &[u8]) -> Option<u128>
    requires fits { first < 2 ^ 127 }
    requires digits { AllDigits 10 digits.now }
    ensures { SomeIff result
        (digits_value_after 10 first digits.now < 2 ^ 127)
        (digits_value_after 10 first digits.now) }
{
    let mut value = first;
    for digit in digits {
        if value > GREATEST_PART / 10 {
            return None;
        }
        value = value * 10 + u128::from(*digit - b'0');
        if value > GREATEST_PART {
            return None;
        }
    }
    Some(value)
}
