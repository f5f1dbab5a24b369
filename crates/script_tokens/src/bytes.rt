//! Bytes of lines, and words.
ghost use Rattle.std.specs.Prelude.{◌≡◌, bytes_eq};
ghost use Rattle.std.specs.List.{list_all};
ghost use Rattle.script_tokens.specs.Tokens.{is_line_byte};

/// Whether a line is of these bytes alone: the space and those that print.
pub fn are_line_bytes(bytes: &[u8]) -> bool
    ensures { result ≡ list_all is_line_byte bytes.now }
{
    bytes.iter().all(|b| is_line_byte(*b))
}

fn is_line_byte(byte: u8) -> bool
    ensures { result ≡ is_line_byte byte }
{
    matches!(byte, b' '..=b'~')
}

/// Whether a token is this word.
pub fn is(token: &[u8], word: &str) -> bool
    ensures { result ≡ bytes_eq token.now word.now }
{
    token == word.as_bytes()
}
