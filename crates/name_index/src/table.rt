//! A one-to-one table of names and numbers.
ghost use Rattle.std.specs.Prelude.{◌≡◌, ◌+◌, ◌<◌, ◌≤◌, None, Some, IsOk, IfErr, OnOk, OnErr, IfSome, IfNone};
ghost use Rattle.std.specs.FinMap as map;
ghost use Rattle.std.specs.Option.{option_copied};

use crate::{Memory, Name};
use indexmap::{IndexMap, IndexSet};
use std::alloc::Global;
use std::marker::Model;

/// Names with their numbers, where no two names have one number.
///
/// Contracts see the finite map from names to numbers, and beside it how many names can still be
/// added without memory. Looking up a name or a number and removing one cost the same however many
/// names there are.
#[derive(Debug, Drop)]
pub struct NameTable {
    numbers: IndexMap<Name, u32>,
    // The numbers by themselves, each at the index of its name.
    places: IndexSet<u32>,
}

impl Model for NameTable {
    ghost use Rattle.std.specs.Prelude.{min};
    ghost use Rattle.std.specs.FinMap as map;
    ghost use Rattle.indexmap.specs.IndexMap.{spare};
    ghost use Rattle.indexmap.specs.IndexSet.{spare as set_spare};
    ghost use Rattle.name_index.specs.NameTable.{Numbering, numbering_code};
    ghost use Rattle.name_index.specs.InStep.{InStep};

    ghost Value = { Numbering };

    ghost coded = { numbering_code };

    ghost view = { λ t. record {
      numbers = map.from_entries t.numbers.entries;
      spare = min (spare t.numbers) (set_spare t.places);
    } };

    ghost invariant = { λ t. InStep t.numbers.entries t.places.keys };
}

impl NameTable {
    ghost use Rattle.name_index.specs.NameTable.{IsNumberFree, IsOneToOne, IsNameAt};

    /// An empty table, which takes no memory.
    pub fn new(alloc: Global) -> NameTable
        ensures { result.numbers ≡ map.empty }
    {
        NameTable {
            numbers: IndexMap::new(alloc),
            places: IndexSet::new(alloc),
        }
    }

    /// Makes room for `extra` more names, so that as many can be added without memory.
    pub fn reserve(&mut self, extra: usize) -> Result<(), Memory>
        ensures ok { OnOk result (extra ≤ self.new.spare) }
        ensures numbers { self.new.numbers ≡ self.old.numbers }
        ensures spare { self.old.spare ≤ self.new.spare }
    {
        self.numbers.reserve(extra)?;
        self.places.reserve(extra)?;
        Ok(())
    }

    /// Adds a name with its number, neither of which may be there. Without memory the name comes
    /// back and the table is as it was. With `spare` above 0 it can't be refused.
    pub fn add(&mut self, name: Name, id: u32) -> Result<(), (Name, Memory)>
        requires name_free { map.get self.old.numbers name ≡ None }
        requires id_free { IsNumberFree self.old.numbers id }
        ensures ok { OnOk result (self.new.numbers ≡ map.insert self.old.numbers name id) }
        ensures returned { IfErr result (λ refused. refused.0 ≡ name) }
        ensures err { OnErr result (self.new.numbers ≡ self.old.numbers) }
        ensures succeeds { 0 < self.old.spare → IsOk result }
        ensures spare { self.old.spare ≤ self.new.spare + 1 }
        ensures one_to_one { IsOneToOne self.new.numbers }
    {
        if self.places.reserve(1).is_err() {
            return Err((name, Memory));
        }
        match self.numbers.insert(name, id) {
            Ok(_) => {
                self.places.insert(id).unwrap();
                Ok(())
            }
            Err(refused) => {
                let (name, _) = refused.value;
                Err((name, Memory))
            }
        }
    }

    /// The number of a name, and none where the name isn't there.
    pub fn id(&self, name: &Name) -> Option<u32>
        ensures value { result ≡ map.get self.now.numbers name.now }
        ensures one_to_one { IsOneToOne self.now.numbers }
    {
        self.numbers.get(name).copied()
    }

    /// The name with a number, and none where the number isn't there.
    pub fn name(&self, id: u32) -> Option<&Name>
        ensures value { IsNameAt self.now.numbers id (option_copied result) }
        ensures one_to_one { IsOneToOne self.now.numbers }
    {
        let place = self.places.get_index_of(&id)?;
        let (name, _) = self.numbers.get_index(place).unwrap();
        Some(name)
    }

    /// Takes out the name with a number, and gives it back. There is none where the number isn't
    /// there.
    pub fn remove(&mut self, id: u32) -> Option<Name>
        ensures value { IsNameAt self.old.numbers id result }
        ensures removed { IfSome result (λ name. self.new.numbers
            ≡ map.remove self.old.numbers name) }
        ensures absent { IfNone result (self.new.numbers ≡ self.old.numbers) }
        ensures spare { self.old.spare ≤ self.new.spare }
        ensures one_to_one { IsOneToOne self.new.numbers }
    {
        let (place, _) = self.places.swap_remove_full(&id)?;
        let (name, _) = self.numbers.swap_remove_index(place).unwrap();
        Some(name)
    }
}
