//! The pieces of a JSON text outside strings: runs of the bytes of numerals, strings, other bytes.
ghost use Rattle.std.specs.Prelude.{◌≡◌, ◌++◌, ◌<◌, ◌≤◌, [], length, take, drop, not, slice_index, false, ◌≢◌};
ghost use Rattle.std.specs.List.{position_or_len};
ghost use Rattle.mof_text.specs.Rewritten.{is_run_byte, rewritten_at};
ghost use Rattle.mof_text.specs.Rewritten.BytePlace.{in_string, outside};

/// Whether numerals have this byte.
pub(crate) fn is_run_byte(byte: u8) -> bool
    ensures { result ≡ is_run_byte byte }
{
    matches!(byte, b'0'..=b'9' | b'+' | b'-' | b'.' | b'e' | b'E')
}

/// How many such bytes come first.
#[tactic(auto, using(crate::proofs::TextLaws::run_steps))]
pub(crate) fn run_len(text: &[u8]) -> usize
    ensures value { result ≡ position_or_len (λ b. not (is_run_byte b)) text.now }
    ensures within { result ≤ length text.now }
{
    for (place, byte) in text.iter().enumerate() {
        if !is_run_byte(*byte) {
            return place;
        }
    }
    text.len()
}

/// How many bytes the string or the other byte has with which the text begins.
pub(crate) fn other_len(text: &[u8]) -> usize
    requires some { 0 < length text.now }
    requires other { is_run_byte (slice_index text.now 0) ≡ false }
    ensures some { 0 < result }
    ensures within { result ≤ length text.now }
    ensures kept { rewritten_at (outside []) text.now
        ≡ take result text.now ++ rewritten_at (outside []) (drop result text.now) }
{
    if text[0] == b'"' {
        1 + string_len(&text[1..])
    } else {
        1
    }
}

// How many bytes a string has behind its first quote, the last quote among them.
fn string_len(text: &[u8]) -> usize
    ensures within { result ≤ length text.now }
    ensures kept { rewritten_at in_string text.now
        ≡ take result text.now ++ rewritten_at (outside []) (drop result text.now) }
{
    let mut place = 0;
    while place < text.len() {
        if text[place] == b'"' {
            return place + 1;
        }
        place += step_len(&text[place..]);
    }
    place
}

// How many bytes the escape, or the run of other bytes, has with which the rest of a string begins.
fn step_len(text: &[u8]) -> usize
    requires some { 0 < length text.now }
    requires no_quote { slice_index text.now 0 ≢ 34 }
    ensures some { 0 < result }
    ensures within { result ≤ length text.now }
    ensures kept { rewritten_at in_string text.now
        ≡ take result text.now ++ rewritten_at in_string (drop result text.now) }
{
    if text.len() > 1 && text[0] == b'\\' {
        return 2;
    }
    let mut place = 1;
    while place < text.len() && text[place] != b'"' && text[place] != b'\\' {
        place += 1;
    }
    place
}
