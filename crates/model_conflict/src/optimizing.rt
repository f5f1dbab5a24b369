//! What an optimise of a model without an objective gives.
ghost use Rattle.std.specs.Prelude.{◌≡◌, true};
ghost use Rattle.cache_layer.specs.Cached.{model_in, state_of};
ghost use Rattle.model_conflict.specs.Optima.{IsNotUnbounded, IsOptimumOf, TellsOptimum};
ghost use Rattle.user_model.specs.declared.objective.Objective.TheVariants.{Feasibility};

use bridge_face::Bridge;
use cache_layer::{Cache, OptFault};
use cert_core::{Certificate, DualRows};
use ratio_core::{Ratio, Ratios};

/// The duals of an infeasibility certificate.
#[derive(Drop)]
pub(crate) struct Duals {
    pub gap: Ratio,
    /// In the order of the model's rows.
    pub rows: DualRows,
    pub vars: Ratios,
}

/// What an optimise gives without an objective.
#[derive(Drop)]
pub(crate) enum Optimum {
    Point(Ratios),
    Infeasible(Duals),
}

/// A feasible point, or duals that show that there is none.
pub(crate) fn optimize<B: Bridge>(cache: &Cache<B>, pivots: u64) -> Result<Optimum, OptFault>
    requires attached { cache.now.attached ≡ true }
    requires bare { (model_in cache.now).objective ≡ Feasibility }
    ensures { TellsOptimum (state_of cache.now) pivots result }
{
    match cache.optimize(pivots) {
        Ok(certificate) => Ok(optimum_of(certificate)),
        Err(fault) => Err(fault),
    }
}

// What a certificate gives that has no ray.
fn optimum_of(certificate: Certificate) -> Optimum
    requires { IsNotUnbounded certificate }
    ensures { IsOptimumOf certificate result }
{
    match certificate {
        Certificate::Optimal { x, .. } => Optimum::Point(x),
        Certificate::Infeasible { gap, rows, vars } => Optimum::Infeasible(Duals {
            gap,
            rows,
            vars,
        }),
        Certificate::Unbounded { .. } => unreachable!(),
    }
}
