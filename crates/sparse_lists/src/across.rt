//! Lists that are written across, a place at a time.
ghost use Rattle.std.specs.Prelude.{◌≡◌, ◌≢◌, ◌+◌, ◌<◌, ◌≤◌, ℕ, [], cond, length, IfOk, OnOk};
ghost use Rattle.ratio_core.specs.Rational.{neg_ℚ};
ghost use Rattle.sparse_ratios.specs.Terms.{number_at};
ghost use Rattle.sparse_lists.specs.Across.{ArePutAcross, IsPutIn, PlacesRise, list_at};

use lists::Memory;
use ratio_core::Ratio;
use sparse_ratios::SparseRatios;
use std::alloc::Global;

/// This number of lists without numbers.
pub fn none(alloc: Global, count: usize) -> Result<Vec<SparseRatios>, Memory>
    ensures count { IfOk result (λ lists. length lists.items ≡ count) }
    ensures empty { IfOk result (λ lists. (b : ℕ) → list_at lists.items b ≡ []) }
{
    let mut lists = Vec::with_capacity(alloc, count)?;
    for _ in 0..count {
        let list = SparseRatios::new(alloc);
        lists.push(list)?;
    }
    Ok(lists)
}

/// Puts a term's number at a place of the list that the term names, and 0 there in each other list.
/// Terms that name no list are skipped.
pub fn put_across(
    lists: &mut [SparseRatios],
    place: usize,
    negated: bool,
    terms: &[(usize, Ratio)],
) -> Result<(), Memory>
    requires rise { PlacesRise terms.now }
    requires low { (b : ℕ) → length (list_at lists.old b) ≤ place }
    ensures { OnOk result (ArePutAcross place
        (λ b. cond negated (neg_ℚ (number_at terms.now b)) (number_at terms.now b))
        lists.old lists.new) }
{
    for term in terms {
        put_in(lists, term.0, place, signed(negated, term.1))?;
    }
    Ok(())
}

fn signed(negated: bool, number: Ratio) -> Ratio
    ensures { result ≡ cond negated (neg_ℚ number) number }
{
    if negated { number.neg() } else { number }
}

// Puts a number at a place of the b-th list, where there is one.
fn put_in(lists: &mut [SparseRatios], b: usize, place: usize, number: Ratio) -> Result<(), Memory>
    requires low { length (list_at lists.old b) ≤ place }
    ensures { OnOk result (IsPutIn b place number lists.old lists.new) }
{
    if b >= lists.len() {
        return Ok(());
    }
    let list = &mut lists[b];
    list.put(place, number)?;
    Ok(())
}
