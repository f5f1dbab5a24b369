//! The addresses of a solver's leaves with their indices, in the order of the addresses.
ghost use Rattle.std.specs.Prelude.{◌≡◌, IfOk};
ghost use Rattle.std.specs.FinMap as finite;

use address_map::{AddressMap, EntriesLeft};
use aff_core::Address;
use lists::Memory;
use std::alloc::Global;

/// The address of a leaf, and its index.
pub(crate) type Entry = (Address, usize);

pub(crate) fn variables(alloc: Global, map: &AddressMap) -> Result<Vec<Entry>, Memory>
    ensures { IfOk result (λ entries. entries.items ≡ finite.entries map.now.vars.indices) }
{
    copies(alloc, map.var_count(), map.vars())
}

pub(crate) fn rows(alloc: Global, map: &AddressMap) -> Result<Vec<Entry>, Memory>
    ensures { IfOk result (λ entries. entries.items ≡ finite.entries map.now.rows.indices) }
{
    copies(alloc, map.row_count(), map.rows())
}

// Copies of the entries, for which there is room at once.
fn copies(
    alloc: Global,
    count: usize,
    entries: EntriesLeft<'_, usize>,
) -> Result<Vec<Entry>, Memory>
    ensures { IfOk result (λ copies. copies.items ≡ entries.entry) }
{
    let mut copies = Vec::with_capacity(alloc, count)?;
    for entry in entries {
        copies.push(*entry)?;
    }
    Ok(copies)
}
