//! Runs of the bytes of numerals: whether one is replaced, and by what.
ghost use Rattle.std.specs.Prelude.{◌≡◌, ◌++◌, ◌==◌, IfOk, OnOk, not, ◌&&◌};
ghost use Rattle.std.specs.Bool.{MatchBool};
ghost use Rattle.std.specs.Str.Parse.{starts_with_minus};
ghost use Rattle.mof_text.specs.Numeral.{is_colon_next, is_json_number, is_json_whole, is_long, is_replaced, is_white, magnitude_of, printed, quoted, replaced};

use crate::decimal::exact_number;
use fast_float::Numeral;
use lists::Memory;
use ratio_core::Ratio;

/// Where a run is replaced, appends the text before it and what stands for it; says whether it is.
pub(crate) fn put_replaced(
    exact: &mut Vec<u8>,
    before: &[u8],
    run: &[u8],
    rest: &[u8],
) -> Result<bool, Memory>
    ensures { IfOk result (λ is_replaced. MatchBool is_replaced
        (exact.new.items ≡ exact.old.items ++ (before.now ++ replaced run.now rest.now))
        ((exact.new.items ≡ exact.old.items) × (replaced run.now rest.now ≡ run.now))) }
{
    let magnitude = magnitude(run);
    let numeral = Numeral::scan(magnitude);
    if !is_replaced(run, &numeral, magnitude.len(), rest) {
        return Ok(false);
    }
    put_number(
        exact,
        before,
        exact_number(starts_with_minus(run), &numeral),
    )?;
    Ok(true)
}

// A run without its minus.
fn magnitude(run: &[u8]) -> &[u8]
    ensures { result.now ≡ magnitude_of run.now }
{
    if starts_with_minus(run) {
        &run[1..]
    } else {
        run
    }
}

fn starts_with_minus(run: &[u8]) -> bool
    ensures { result ≡ starts_with_minus run.now }
{
    !run.is_empty() && run[0] == b'-'
}

// Whether text of this length, cut into these parts, is replaced.
fn is_replaced(run: &[u8], numeral: &Numeral, len: usize, rest: &[u8]) -> bool
    ensures { result ≡ (is_json_number numeral.now len && is_long run.now numeral.now
        && not (is_colon_next rest.now)) }
{
    is_json_number(numeral, len) && is_long(run, numeral) && !is_colon_next(rest)
}

// Whether the numeral takes up these bytes and is one of JSON.
fn is_json_number(numeral: &Numeral, len: usize) -> bool
    ensures { result ≡ is_json_number numeral.now len }
{
    numeral.len() == len
        && is_json_whole(numeral.whole())
        && (!numeral.has_point() || !numeral.fraction().is_empty())
}

// A digit, and none before it is a 0.
fn is_json_whole(whole: &[u8]) -> bool
    ensures { result ≡ is_json_whole whole.now }
{
    !whole.is_empty() && (whole.len() == 1 || whole[0] != b'0')
}

/// The most digits of a whole number that is left as it is.
const SHORT: usize = 18;

// Whether it is `-0`, or has a point, an exponent or more than 18 digits.
fn is_long(run: &[u8], numeral: &Numeral) -> bool
    ensures { result ≡ is_long run.now numeral.now }
{
    run == "-0".as_bytes()
        || numeral.has_point()
        || !numeral.exponent().is_empty()
        || numeral.whole().len() > SHORT
}

// Whether a colon comes next, white space apart.
fn is_colon_next(rest: &[u8]) -> bool
    ensures { result ≡ is_colon_next rest.now }
{
    for byte in rest {
        if !is_white(*byte) {
            return *byte == b':';
        }
    }
    false
}

fn is_white(byte: u8) -> bool
    ensures { result ≡ is_white byte }
{
    matches!(byte, b' ' | b'\t' | b'\n' | b'\r')
}

// Appends text, and a number as a JSON string.
fn put_number(exact: &mut Vec<u8>, before: &[u8], number: Option<Ratio>) -> Result<(), Memory>
    ensures { OnOk result
        (exact.new.items ≡ exact.old.items ++ (before.now ++ quoted (printed number))) }
{
    exact.extend_from_slice(before)?;
    exact.push(b'"')?;
    put_text(exact, number)?;
    exact.push(b'"')?;
    Ok(())
}

fn put_text(exact: &mut Vec<u8>, number: Option<Ratio>) -> Result<(), Memory>
    ensures { OnOk result (exact.new.items ≡ exact.old.items ++ printed number) }
{
    match number {
        Some(number) => number.print(exact),
        None => Ok(exact.push(b'!')?),
    }
}
