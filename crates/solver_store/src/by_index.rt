//! Finite maps from solver indices.
ghost use Rattle.std.specs.Prelude.{◌≡◌, IfOk, OnOk, OnErr, IfErr};
ghost use Rattle.std.specs.Option.{option_copied};
ghost use Rattle.std.specs.FinMap as finite;

use lists::Memory;
use ratio_core::{Ratio, Ratios};
use std::alloc::Global;
use std::collections::BTreeMap;
use std::marker::Model;

/// A finite map from solver indices to values.
#[derive(Debug, Drop)]
pub struct ByIndex<V> {
    entries: BTreeMap<usize, V>,
}

/// A number for each leaf variable of some.
pub type LeafPoint = ByIndex<Ratio>;

/// A dual for each leaf row of some, as long as the row's set has components.
pub type LeafDuals = ByIndex<Ratios>;

impl<V> Model for ByIndex<V> {
    ghost use Rattle.std.specs.Coded.{coded_ℕ};
    ghost use Rattle.std.specs.FinMap as finite;
    ghost use Rattle.std.specs.Ordering.{nat_cmp};

    ghost Value = { finite.FinMap nat_cmp V };

    ghost coded = { finite.code coded_ℕ V.code };

    ghost view = { λ a. finite.from_entries a.entries.entries };
}

impl<V> ByIndex<V> {
    /// No values, which takes no memory.
    pub fn new(alloc: Global) -> ByIndex<V>
        ensures { result ≡ finite.empty }
    {
        ByIndex {
            entries: BTreeMap::new(alloc),
        }
    }

    /// Sets the value at an index and answers the one before, or hands the value back.
    pub fn put(&mut self, i: usize, value: V) -> Result<Option<V>, (V, Memory)>
        ensures before { IfOk result (λ before. before ≡ finite.get self.old i) }
        ensures ok { OnOk result (self.new ≡ finite.insert self.old i value) }
        ensures err { OnErr result (self.new ≡ self.old) }
        ensures handed_back { IfErr result (λ e. e.0 ≡ value) }
    {
        match self.entries.insert(i, value) {
            Ok(before) => Ok(before),
            Err(full) => Err((full.value.1, Memory)),
        }
    }

    /// The value at an index, and `None` where there is none.
    pub fn get(&self, i: usize) -> Option<&V>
        ensures { option_copied result ≡ finite.get self.now i }
    {
        self.entries.get(&i)
    }
}
