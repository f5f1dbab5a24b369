// Fractions as text.
ghost use Rattle.std.specs.Prelude.{◌≡◌, ◌<◌, ◌≤◌, ◌^◌, ◌+◌, ◌∷◌, ◌++◌, IfSome, OnErr, OnOk, decimal, drop, if◌then◌else◌, position};
ghost use Rattle.std.specs.Option.{ForSome};
ghost use Rattle.ratio_core.specs.Text.{denominator_of, denominator_text, is_slash, numerator_of, part_of, rational_from, rational_of, text_of};

use crate::divisor::GREATEST_PART;
use crate::fraction::Ratio;
use lists::Memory;
use std::fmt;

impl Ratio {
    /// The fraction that the text stands for: an optional `-`, one or more digits, and optionally
    /// `/` with one or more digits. `None` exactly where the text isn't of that form, the
    /// denominator is 0, or a part as written passes 2^127 - 1.
    pub fn read(text: &[u8]) -> Option<Ratio>
        ensures { result ≡ rational_of text.now }
    {
        if !text.is_empty() && text[0] == b'-' {
            read_fraction(true, &text[1..])
        } else {
            read_fraction(false, text)
        }
    }

    /// Appends the lowest terms, without `/1`. After `Memory` nothing is appended.
    pub fn print(&self, out: &mut Vec<u8>) -> Result<(), Memory>
        ensures ok { OnOk result (out.new.items ≡ out.old.items ++ text_of self.now) }
        ensures memory { OnErr result (out.new.items ≡ out.old.items) }

        // What is printed reads back.
        ensures reads_back { rational_of (text_of self.now) ≡ Some self.now }
    {
        let mut text = [0; TEXT_ROOM];
        let end = put_denominator(&mut text, self.over());
        let start = put_numerator(&mut text, end, self.is_negative(), self.size());
        out.extend_from_slice(&text[start..])?;
        Ok(())
    }
}

impl fmt::Display for Ratio {
    fn fmt<W: fmt::Write>(&self, f: &mut fmt::Formatter<W>) -> fmt::Result {
        if self.den() == 1 {
            write!(f, "{}", self.num())
        } else {
            write!(f, "{}/{}", self.num(), self.den())
        }
    }
}

impl fmt::Debug for Ratio {
    fn fmt<W: fmt::Write>(&self, f: &mut fmt::Formatter<W>) -> fmt::Result {
        write!(f, "{self}")
    }
}

// Room for a sign, two numbers below 2^127, which have at most 39 digits, and a slash.
const TEXT_ROOM: usize = 80;

// Writes `/` and the denominator at the end of the text, or nothing for 1, and says where it
// starts.
fn put_denominator(text: &mut [u8; TEXT_ROOM], den: u128) -> usize
    requires { den < 2 ^ 127 }
    ensures within { (40 ≤ result) × (result ≤ 80) }
    ensures written { drop result text.new ≡ denominator_text den }
{
    if den == 1 {
        return TEXT_ROOM;
    }
    let slash = put_digits(text, TEXT_ROOM, den) - 1;
    text[slash] = b'/';
    slash
}

// Writes the number before the place, and says where it starts.
fn put_numerator(text: &mut [u8; TEXT_ROOM], end: usize, is_negative: bool, size: u128) -> usize
    requires size_fits { size < 2 ^ 127 }
    requires room { (40 ≤ end) × (end ≤ 80) }
    ensures within { result ≤ 80 }
    ensures written { drop result text.new
        ≡ (if is_negative then 45 ∷ decimal size else decimal size) ++ drop end text.old }
{
    let digits = put_digits(text, end, size);
    if !is_negative {
        return digits;
    }
    let start = digits - 1;
    text[start] = b'-';
    start
}

// Writes the digits before the place, and says where they start.
fn put_digits(text: &mut [u8; TEXT_ROOM], end: usize, n: u128) -> usize
    requires size_fits { n < 2 ^ 127 }
    requires room { (39 ≤ end) × (end ≤ 80) }
    ensures within { (result ≤ end) × (end ≤ result + 39) }
    ensures written { drop result text.new ≡ decimal n ++ drop end text.old }
{
    let mut start = end;
    let mut rest = n;
    loop {
        start -= 1;
        text[start] = b'0' + (rest % 10) as u8;
        rest /= 10;
        if rest == 0 {
            return start;
        }
    }
}

// The fraction that the digits stand for, with this sign.
fn read_fraction(is_negative: bool, digits: &[u8]) -> Option<Ratio>
    ensures { result
        ≡ rational_from is_negative (numerator_of digits.now) (denominator_of digits.now) }
{
    match slash_at(digits) {
        Some(at) => fraction_of(
            is_negative,
            read_part(&digits[..at]),
            read_part(&digits[at + 1..]),
        ),
        None => fraction_of(is_negative, read_part(digits), Some(1)),
    }
}

fn slash_at(text: &[u8]) -> Option<usize>
    ensures { result ≡ position is_slash text.now }
{
    text.iter().position(|b| *b == b'/')
}

// The parts in lowest terms.
fn fraction_of(is_negative: bool, size: Option<u128>, den: Option<u128>) -> Option<Ratio>
    requires size_fits { ForSome size (λ n. n < 2 ^ 127) }
    requires den_fits { ForSome den (λ n. n < 2 ^ 127) }
    ensures { result ≡ rational_from is_negative size den }
{
    let (size, den) = (size?, den?);
    if den == 0 {
        return None;
    }
    Ratio::lowest(is_negative, size, den).ok()
}

// The number that the digits write, if they are digits and it is at most 2^127 - 1.
fn read_part(text: &[u8]) -> Option<u128>
    ensures value { result ≡ part_of text.now }
    ensures fits { IfSome result (λ n. n < 2 ^ 127) }
{
    if text.is_empty() {
        return None;
    }
    let mut value: u128 = 0;
    for byte in text {
        if !byte.is_ascii_digit() || value > GREATEST_PART / 10 {
            return None;
        }
        value = value * 10 + u128::from(*byte - b'0');
        if value > GREATEST_PART {
            return None;
        }
    }
    Some(value)
}
