//! Of old leaves, those that are removed where others are put.
ghost use Rattle.std.specs.Prelude.{◌≡◌, IfOk, flat_map};
ghost use Rattle.fresh_bridging.specs.Leaves.{leaf_objectives, leaf_rows, leaf_variables};
ghost use Rattle.leaf_update.specs.Others.{others, others_among};
ghost use Rattle.leaf_update.specs.Splice.{gone_in, keys_of};

use crate::change::GoneLeaves;
use crate::others::{puts_objective, rows_put, variables_put};
use crate::sorted::SortedAddresses;
use aff_core::Address;
use item_core::Item;
use lists::Memory;
use std::alloc::Global;

/// Of addresses of old leaves those at which none of these leaves is put.
pub fn gone_among(alloc: Global, had: &GoneLeaves, leaves: &[Item]) -> Result<GoneLeaves, Memory>
    ensures { IfOk result (λ gone. gone_in gone ≡ others_among (gone_in had.now) leaves.now) }
{
    Ok(GoneLeaves {
        variables: variables_among(alloc, &had.variables, leaves)?,
        rows: rows_among(alloc, &had.rows, leaves)?,
        objective: objectives_among(alloc, &had.objective, leaves)?,
    })
}

fn variables_among(alloc: Global, all: &[Address], leaves: &[Item]) -> Result<Vec<Address>, Memory>
    ensures { IfOk result (λ gone. gone.items
        ≡ others (keys_of (flat_map leaf_variables leaves.now)) all.now) }
{
    if all.is_empty() {
        return Ok(Vec::new(alloc));
    }
    let put = variables_put(alloc, leaves)?;
    not_put(alloc, &put, all)
}

fn rows_among(alloc: Global, all: &[Address], leaves: &[Item]) -> Result<Vec<Address>, Memory>
    ensures { IfOk result (λ gone. gone.items
        ≡ others (keys_of (flat_map leaf_rows leaves.now)) all.now) }
{
    if all.is_empty() {
        return Ok(Vec::new(alloc));
    }
    let put = rows_put(alloc, leaves)?;
    not_put(alloc, &put, all)
}

// Those of the addresses at which nothing is put.
fn not_put(alloc: Global, put: &SortedAddresses, all: &[Address]) -> Result<Vec<Address>, Memory>
    ensures { IfOk result (λ gone. gone.items ≡ others put.now all.now) }
{
    Ok(
        all.iter()
            .copied()
            .filter(|at| !put.contains(at))
            .collect(alloc)?,
    )
}

fn objectives_among(alloc: Global, all: &[Address], leaves: &[Item]) -> Result<Vec<Address>, Memory>
    ensures { IfOk result (λ gone. gone.items
        ≡ others (keys_of (flat_map leaf_objectives leaves.now)) all.now) }
{
    Ok(
        all.iter()
            .copied()
            .filter(|at| !puts_objective(at, leaves))
            .collect(alloc)?,
    )
}
