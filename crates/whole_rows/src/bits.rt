//! Bits of words.
ghost use Rattle.std.specs.Prelude.{◌≡◌, ◌≢◌, ◌<◌, ◌≤◌, ℕ, IsTrue, false};
ghost use Rattle.std.specs.Int.{bit_at};
ghost use Rattle.whole_rows.specs.Bits.{IsBitCleared, IsLowestBit};

/// The lowest bit that is set.
#[inline]
pub fn lowest(word: u64) -> usize
    requires { 0 < word }
    ensures { IsLowestBit word result }
{
    word.trailing_zeros() as usize
}

/// The word with its lowest bit cleared.
#[inline]
pub fn without_lowest(word: u64) -> u64
    requires { 0 < word }
    ensures smaller { result < word }
    ensures cleared { (k : ℕ) → IsLowestBit word k → IsBitCleared k word result }
{
    word & (word - 1)
}

/// The first bit from this one on that is set, or 64.
#[inline]
pub fn next_bit(word: u64, from: usize) -> usize
    requires { from < 64 }
    ensures from { from ≤ result }
    ensures passed { (k : ℕ) → from ≤ k → k < result → bit_at word k ≡ 0 }
    ensures set { result < 64 → bit_at word result ≡ 1 }
{
    let rest = word >> from;
    if rest == 0 {
        return 64;
    }
    from + rest.trailing_zeros() as usize
}

/// The word with bit k set.
#[inline]
pub fn with_bit(word: u64, k: usize) -> u64
    requires { k < 64 }
    ensures set { bit_at result k ≡ 1 }
    ensures others { (i : ℕ) → i ≢ k → bit_at result i ≡ bit_at word i }
{
    word | 1u64 << k
}

/// The word with bit k cleared, where that is asked for: which are can't be foreseen, so no way
/// parts.
#[inline]
pub fn without_bit_if(word: u64, k: usize, clears: bool) -> u64
    requires { k < 64 }
    ensures cleared { IsTrue clears → bit_at result k ≡ 0 }
    ensures kept { clears ≡ false → bit_at result k ≡ bit_at word k }
    ensures others { (i : ℕ) → i < 64 → i ≢ k → bit_at result i ≡ bit_at word i }
{
    word & !(bit_if(clears) << k)
}

// 1 where it is asked for.
#[inline]
fn bit_if(set: bool) -> u64
    ensures one { IsTrue set → result ≡ 1 }
    ensures none { set ≡ false → result ≡ 0 }
{
    set as u64
}
