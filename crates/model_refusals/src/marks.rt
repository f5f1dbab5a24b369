//! A set of hashes, which takes no memory but its own.
ghost use Rattle.std.specs.Prelude.{◌≡◌, ℕ, ◌<◌, ◌||◌, ◌==◌, true};

const WORDS: usize = 8192;

const BITS: u64 = 524_288;

/// Bits, of which each hash that was put has three.
#[derive(Drop)]
pub(crate) struct Marks {
    words: [u64; WORDS],
}

impl Marks {
    ghost use Rattle.model_refusals.specs.Marked.{has_bit, is_marked};

    /// No bit is set.
    pub(crate) fn new() -> Marks {
        Marks { words: [0; WORDS] }
    }

    /// Whether the hash may have been put, as it is of each that was.
    pub(crate) fn has(&self, hash: u64) -> bool
        ensures { result ≡ is_marked self.now hash }
    {
        self.has_bit((hash >> 45) % BITS)
            && self.has_bit((hash >> 26) % BITS)
            && self.has_bit((hash >> 7) % BITS)
    }

    pub(crate) fn put(&mut self, hash: u64)
        ensures put { is_marked self.new hash ≡ true }
        ensures kept { (other : ℕ) → is_marked self.old other ≡ true
            → is_marked self.new other ≡ true }
    {
        self.put_bit((hash >> 45) % BITS);
        self.put_bit((hash >> 26) % BITS);
        self.put_bit((hash >> 7) % BITS);
    }

    fn has_bit(&self, place: u64) -> bool
        requires { place < 524288 }
        ensures { result ≡ has_bit self.now place }
    {
        (self.words[(place / 64) as usize] >> (place % 64)) & 1 == 1
    }

    fn put_bit(&mut self, place: u64)
        requires { place < 524288 }
        ensures { (n : ℕ) → has_bit self.new n ≡ (n == place || has_bit self.old n) }
    {
        self.words[(place / 64) as usize] |= 1 << (place % 64);
    }
}
