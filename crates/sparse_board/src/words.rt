//! Bits of words.
ghost use Rattle.std.specs.Prelude.{◌≡◌, ◌+◌, ◌<◌, ◌≤◌, ◌⊎◌, length, min, nat_eq};
ghost use Rattle.std.specs.Int.{bit_at};
ghost use Rattle.sparse_board.specs.Words.{AreJoined};

// Whether bit k is set.
#[inline]
pub(crate) fn has_bit(word: u64, k: usize) -> bool
    requires { k < 64 }
    ensures { result ≡ nat_eq (bit_at word k) 1 }
{
    (word >> k) & 1 == 1
}

// Where the bits of a word end whose rows are below this number.
#[inline]
pub(crate) fn word_end(rows: usize) -> usize
    ensures { result ≡ min 64 rows }
{
    if rows < 64 { rows } else { 64 }
}

// Sets the bits of `count` words from place `to` on that are set in those from place `from` on.
pub(crate) fn join_words(words: &mut [u64], from: usize, to: usize, count: usize)
    requires from { from + count ≤ length words.old }
    requires to { to + count ≤ length words.old }
    requires apart { (to ≤ from) ⊎ (from + count ≤ to) }
    ensures { AreJoined from to count words.old words.new }
{
    for k in 0..count {
        let joined = words[to + k] | words[from + k];
        words[to + k] = joined;
    }
}
