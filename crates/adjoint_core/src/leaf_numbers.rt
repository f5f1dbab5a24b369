//! The numbers of the leaf variables, by their addresses.
ghost use Rattle.std.specs.Prelude.{◌≡◌, IfOk, unwrap_or};
ghost use Rattle.std.specs.FinMap as finite;
ghost use Rattle.ratio_core.specs.Rational.{zero_ℚ};
ghost use Rattle.aff_core.specs.Points.{spread};
ghost use Rattle.cert_core.specs.Points.{numbers_in};
ghost use Rattle.adjoint_core.specs.Read.{numbers_by};

use address_map::AddressMap;
use cert_core::{ModelPoint, Variables};
use lists::Memory;
use ratio_core::Ratio;
use solver_store::LeafPoint;
use std::alloc::Global;

/// A number for each leaf variable, in the order of their addresses.
#[derive(Drop)]
pub(crate) struct LeafNumbers {
    variables: Variables,
    numbers: Vec<Ratio>,
}

impl LeafNumbers {
    pub(crate) fn of(
        alloc: Global,
        places: &AddressMap,
        x: &LeafPoint,
    ) -> Result<LeafNumbers, Memory>
        ensures { IfOk result (λ leaf.
            spread leaf.variables leaf.numbers.items ≡ numbers_by places.now x.now) }
    {
        let mut addresses = Vec::with_capacity(alloc, places.var_count())?;
        let mut numbers = Vec::with_capacity(alloc, places.var_count())?;
        for entry in places.vars() {
            addresses.push(entry.0)?;
            numbers.push(number(x, entry.1))?;
        }
        Ok(LeafNumbers {
            variables: Variables::ascending(addresses),
            numbers,
        })
    }

    pub(crate) fn point(&self) -> ModelPoint<'_>
        ensures { numbers_in result ≡ spread self.now.variables self.now.numbers.items }
    {
        ModelPoint::new(&self.variables, &self.numbers)
    }
}

// The number at an index.
fn number(x: &LeafPoint, i: usize) -> Ratio
    ensures { result ≡ unwrap_or (finite.get x.now i) zero_ℚ }
{
    match x.get(i) {
        Some(number) => *number,
        None => Ratio::zero(),
    }
}
