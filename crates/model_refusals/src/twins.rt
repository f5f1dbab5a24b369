//! Names that stand twice.
ghost use Rattle.std.specs.Prelude.{◌≡◌, ◌≤◌, ◌<◌, ◌%◌, ◌==◌, length, take, true, false};
ghost use Rattle.std.specs.List.{list_any};
ghost use Rattle.std.specs.Str.{bytes_eq};
ghost use Rattle.user_model.specs.Refusals.{has_twins};
ghost use Rattle.model_refusals.specs.Hash.{AreNew, hash_of};

use crate::marks::Marks;
use name_index::{Name, Names};

// This number of names sets at most a tenth of the marks' bits.
const AT_ONCE: usize = 16_384;

/// Whether some name stands twice.
///
/// A name is compared with those before it only where their marks have its hash. Of n names it
/// makes n² / 16,384 hashes and about as many comparisons, and n hashes up to 16,384 names; n² / 2
/// comparisons at worst, where most hashes are equal.
pub(crate) fn has_twins(names: &Names) -> bool
    ensures { result ≡ has_twins names.now }
{
    if names.len() < 2 {
        return false;
    }
    let parts = (names.len() / AT_ONCE) as u64 + 1;
    for part in 0..parts {
        if has_twins_in(names, part, parts) {
            return true;
        }
    }
    false
}

// Whether a name whose hash is of this part stands twice.
//
// A set of the names would take memory, and checking an edit takes none. So hashes are marked on
// the stack: a mark says that a name may have stood before, and then the names decide.
fn has_twins_in(names: &Names, part: u64, parts: u64) -> bool
    requires { 0 < parts }
    ensures some { result ≡ true → has_twins names.now ≡ true }
    ensures none { result ≡ false → AreNew names.now (λ hash. hash % parts == part) }
{
    let mut marks = Marks::new();
    for place in 0..names.len() {
        if let Some(name) = names.get(place) {
            let hash = hash_of(name);
            if hash % parts == part {
                if marks.has(hash) && stands_before(names, place, name) {
                    return true;
                }
                marks.put(hash);
            }
        }
    }
    false
}

// Equal names have one hash. The factor is 2^64 over the golden ratio, so names that differ in a
// number have hashes far apart.
pub(crate) fn hash_of(name: &Name) -> u64
    ensures { result ≡ hash_of name.now }
{
    let mut hash: u64 = 0;
    for byte in name.text().as_bytes() {
        hash = hash
            .wrapping_add(u64::from(*byte))
            .wrapping_mul(11_400_714_819_323_198_485);
    }
    hash
}

// Whether the name is one of the first ones, up to this number.
fn stands_before(names: &Names, end: usize, name: &Name) -> bool
    requires { end ≤ length names.now }
    ensures { result ≡ list_any (bytes_eq name.now) (take end names.now) }
{
    for place in 0..end {
        if let Some(other) = names.get(place) {
            if name == other {
                return true;
            }
        }
    }
    false
}
