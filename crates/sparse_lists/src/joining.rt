//! Lists one after the other.
ghost use Rattle.std.specs.Prelude.{◌≡◌, ◌+◌, ◌<◌, ◌≤◌, ◌^◌, ◌++◌, ℕ, flat_map, length, IfOk, OnOk};
ghost use Rattle.sparse_lists.specs.Across.{list_at, padded};

use lists::Memory;
use sparse_ratios::SparseRatios;
use std::alloc::Global;

/// The lists, each with zeros behind it so that it has `len` numbers, one after the other.
pub fn joined(alloc: Global, lists: &[SparseRatios], len: usize) -> Result<SparseRatios, Memory>
    requires { (b : ℕ) → length (list_at lists.now b) ≤ len }
    ensures { IfOk result (λ all. all ≡ flat_map (padded len) lists.now) }
{
    let mut all = SparseRatios::new(alloc);
    for list in lists {
        append(&mut all, list, len)?;
    }
    Ok(all)
}

// Appends a list, and zeros behind it.
fn append(all: &mut SparseRatios, list: &SparseRatios, len: usize) -> Result<(), Memory>
    requires { length list.now ≤ len }
    ensures { OnOk result (all.new ≡ all.old ++ padded len list.now) }
{
    let start = all.len();
    let end = end_of(start, len)?;
    for term in list.terms() {
        all.put(start + term.0, term.1)?;
    }
    all.pad(end);
    Ok(())
}

// Where numbers end that begin at a place.
fn end_of(start: usize, len: usize) -> Result<usize, Memory>
    ensures end { IfOk result (λ end. end ≡ start + len) }
    ensures fits { OnOk result (start + len < 2 ^ 64) }
{
    match start.checked_add(len) {
        Some(end) => Ok(end),
        None => Err(Memory),
    }
}
