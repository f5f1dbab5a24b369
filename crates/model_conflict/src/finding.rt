//! The conflict of an attached model.
ghost use Rattle.std.specs.Prelude.{◌≡◌, IfOk, OnOk, length};
ghost use Rattle.cache_layer.specs.Cached.{model_in, state_of};
ghost use Rattle.model_conflict.specs.Conflict.{ShowsFound};
ghost use Rattle.model_conflict.specs.Steps.{CanWalk};
ghost use Rattle.model_conflict.specs.Walk.{Finds, NamesRows};

use crate::Found;
use crate::optimizing::{Optimum, optimize};
use crate::trials::walk;
use bridge_face::Bridge;
use cache_layer::{Cache, OptFault};

/// Why neither a point nor a conflict is found: the fault of the first optimise that gives no
/// certificate, which is never `NotAttached`.
pub type ConflictFault = OptFault;

/// A feasible point of an attached model without an objective, or a conflict: rows that can't hold
/// together, none of which can be left out. Row numbers must leave room for one more number a row. The
/// solver is asked once for the model and then once for each of its rows, until it gives no
/// certificate.
pub fn find<B: Bridge>(cache: Cache<B>, pivots: u64) -> Result<Found, ConflictFault>
    requires { CanWalk (state_of cache) (length (model_in cache).rows) }
    ensures finds { Finds (state_of cache) pivots result }
    ensures shows { IfOk result (ShowsFound (model_in cache)) }
{
    let mut cache = cache;
    let found = find_in(&mut cache, pivots);
    drop(cache);
    found
}

/// A feasible point or a conflict, as by `find`, of a cache that the caller keeps. After a conflict its
/// model has the rows of the conflict alone, in their order.
pub fn find_in<B: Bridge>(cache: &mut Cache<B>, pivots: u64) -> Result<Found, ConflictFault>
    requires { CanWalk (state_of cache.old) (length (model_in cache.old).rows) }
    ensures finds { Finds (state_of cache.old) pivots result }
    ensures shows { IfOk result (ShowsFound (model_in cache.old)) }
    ensures groups { OnOk result ((model_in cache.new).groups ≡ (model_in cache.old).groups) }
    ensures rows { IfOk result (NamesRows (model_in cache.new)) }
{
    seek(cache, pivots)
}

// What is found, without what it shows of the model.
fn seek<B: Bridge>(cache: &mut Cache<B>, pivots: u64) -> Result<Found, ConflictFault>
    requires { CanWalk (state_of cache.old) (length (model_in cache.old).rows) }
    ensures finds { Finds (state_of cache.old) pivots result }
    ensures groups { OnOk result ((model_in cache.new).groups ≡ (model_in cache.old).groups) }
    ensures rows { IfOk result (NamesRows (model_in cache.new)) }
{
    match optimize(cache, pivots) {
        Ok(Optimum::Point(x)) => Ok(Found::Feasible { x }),
        Ok(Optimum::Infeasible(duals)) => walk(cache, pivots, duals),
        Err(fault) => Err(fault),
    }
}
