//! Finite maps from addresses.
ghost use Rattle.std.specs.Prelude.{◌≡◌, IfOk, OnOk, OnErr, IfErr, IsTrue, ◌↔◌, filter};
ghost use Rattle.std.specs.Option.{option_copied};
ghost use Rattle.std.specs.FinMap as finite;
ghost use Rattle.aff_core.specs.Arithmetic.{HasEach};
ghost use Rattle.aff_core.specs.Terms.{is_nonzero};

use crate::{Address, Aff};
use ratio_core::{Memory, Ratio};
use std::alloc::Global;
use std::collections::BTreeMap;
use std::marker::Model;

/// A finite map from addresses to values.
#[derive(Debug, Drop)]
pub struct ByAddress<V> {
    entries: BTreeMap<Address, V>,
}

/// An affine function for each address of some.
pub type Exprs = ByAddress<Aff>;

/// A number for each address of some.
pub type Point = ByAddress<Ratio>;

impl<V> Model for ByAddress<V> {
    ghost use Rattle.std.specs.FinMap as finite;
    ghost use Rattle.aff_core.specs.Address.{address_cmp, address_code};

    ghost Value = { finite.FinMap address_cmp V };

    ghost coded = { finite.code address_code V.code };

    ghost view = { λ a. finite.from_entries a.entries.entries };
}

impl<V> ByAddress<V> {
    pub fn new(alloc: Global) -> ByAddress<V>
        ensures { result ≡ finite.empty }
    {
        ByAddress {
            entries: BTreeMap::new(alloc),
        }
    }

    /// Sets the value of an address and answers the one before, or hands the value back.
    pub fn put(&mut self, at: Address, value: V) -> Result<Option<V>, (V, Memory)>
        ensures before { IfOk result (λ before. before ≡ finite.get self.old at) }
        ensures ok { OnOk result (self.new ≡ finite.insert self.old at value) }
        ensures err { OnErr result (self.new ≡ self.old) }
        ensures handed_back { IfErr result (λ e. e.0 ≡ value) }
    {
        match self.entries.insert(at, value) {
            Ok(before) => Ok(before),
            Err(full) => Err((full.value.1, Memory)),
        }
    }

    /// The value of an address, and `None` where there is none.
    pub fn get(&self, at: &Address) -> Option<&V>
        ensures { option_copied result ≡ finite.get self.now at.now }
    {
        self.entries.get(at)
    }
}

impl<V> ByAddress<V> {
    /// Whether each address that the function mentions has a value.
    pub fn has_each(&self, f: &Aff) -> bool
        ensures { IsTrue result ↔ HasEach self.now f.now }
    {
        f.terms().iter().all(|(at, _)| self.get(at).is_some())
    }
}

impl Point {
    // The terms in the order of their addresses, but those with the coefficient 0.
    pub(crate) fn nonzero_terms(&self, alloc: Global) -> Result<Vec<(Address, Ratio)>, Memory>
        ensures { IfOk result (λ v. v.items ≡ filter is_nonzero (finite.entries self.now)) }
    {
        let zero = Ratio::zero();
        Ok(
            self.entries
                .iter()
                .map(|(at, number)| (*at, *number))
                .filter(|(_, number)| *number != zero)
                .collect(alloc)?,
        )
    }
}
