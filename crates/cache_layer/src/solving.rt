//! Solving the solver's model.
ghost use Rattle.aff_core.specs.Address.{Address};
ghost use Rattle.leaf_model.specs.ReadThrough.{read_through};
ghost use Rattle.std_form.specs.Readable.{IsReadable};
ghost use Rattle.cache_layer.specs.Optimizing.{TellsLeaf};

use crate::OptFault;
use address_map::AddressMap;
use simplex_core::solve;
use solver_store::{LeafAnswer, SolverModel};
use std::alloc::Global;
use std_form::Listing;

/// The answer for the leaves, by at most this number of pivots.
pub(crate) fn leaf_answer(
    alloc: Global,
    solver: &SolverModel,
    map: &AddressMap,
    pivots: u64,
) -> Result<LeafAnswer, OptFault>
    ensures { (at : Address) → IsReadable map.now solver.now.leaves
        → TellsLeaf map.now (read_through map.now solver.now.leaves at) pivots result }
{
    let Ok(listing) = Listing::of(alloc, solver, map) else {
        return Err(OptFault::Memory);
    };
    let form = listing.build(alloc)?;
    let answer = solve(alloc, &form, pivots)?;
    let leaf = listing.read_back(alloc, &form, &answer)?;
    Ok(leaf)
}
