//! Where the pivot's new row has a number that isn't 0: a row is lowered there alone.
ghost use Rattle.std.specs.Prelude.{◌≡◌, ◌≤◌, length, take, IfOk};
ghost use Rattle.tableau_core.specs.Places.{CoversNonzeros};

use ratio_core::Ratio;
use std::alloc::{AllocError, Global};

// Room for as many places.
pub(crate) fn room_for_places(alloc: Global, n: usize) -> Result<Vec<usize>, AllocError>
    ensures { IfOk result (λ places. length places.items ≡ n) }
{
    vec![in alloc; 0; n]
}

// Notes the places of a row's numbers that aren't 0, and tells how many there are.
pub(crate) fn note_places(row: &[Ratio], places: &mut [usize]) -> usize
    requires { length row.now ≤ length places.old }
    ensures within { result ≤ length places.new }
    ensures covers { CoversNonzeros (take result places.new) row.now }
{
    let mut used = 0;
    for j in 0..row.len() {
        if !row[j].is_zero() {
            places[used] = j;
            used += 1;
        }
    }
    used
}
