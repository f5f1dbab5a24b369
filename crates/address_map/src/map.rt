//! The map between leaf addresses and solver indices.
ghost use Rattle.std.specs.Prelude.{◌≡◌, ◌+◌, ◌<◌, ◌≤◌, None, IsOk, IfOk, OnOk, OnErr, false, filter, is_some, length};
ghost use Rattle.std.specs.FinMap as finite;
ghost use Rattle.std.specs.Option.{option_copied};
ghost use Rattle.item_map.specs.ItemAddresses.{is_of};
ghost use Rattle.address_map.specs.Noted.{IsNotedAt, noted_in, with_item, without_item};
ghost use Rattle.address_map.specs.Places.{AreIndicesOneToOne, IsAddressAt, IsIndexFree, addresses};

use crate::notes::{AddressSet, Notes};
use crate::places::Places;
use aff_core::{Address, Aff};
use item_map::{EntriesLeft, ItemMap, RankedItems};
use lists::Memory;
use std::alloc::Global;
use std::marker::Model;

/// One-to-one maps between the addresses of leaves and the indices that a solver's model gave them,
/// for variables and for rows, and each variable's expression over leaf variables.
///
/// Contracts see finite maps from addresses, and beside those of the leaves how many can still be
/// put without memory. A look-up by index is a few probes of a table. All that is found by an address
/// is kept item by item, so that a leaf is put, dropped and looked up in the time of a walk of its
/// own item's leaves. `vars` and `rows` give all leaves with their indices, and `vars_of` and
/// `rows_of` those of an item, so that none of them is looked up. Besides, it is noted which items
/// mention a variable, and which variables are kept.
#[derive(Debug, Drop)]
pub struct AddressMap {
    vars: Places,
    rows: Places,
    exprs: ItemMap<Aff>,
    notes: Notes,
    kept: ItemMap<()>,
}

impl Model for AddressMap {
    ghost use Rattle.address_map.specs.AddressMap.{AddressMap, address_map_code};

    ghost Value = { AddressMap };

    ghost coded = { address_map_code };

    ghost view = { λ a. record {
      vars = a.vars;
      rows = a.rows;
      exprs = a.exprs.entries;
      noted = a.notes;
      kept = a.kept.entries;
    } };
}

impl AddressMap {
    /// A map with no leaf and no expression, which takes no memory.
    pub fn new(alloc: Global) -> AddressMap
        ensures vars { result.vars.indices ≡ finite.empty }
        ensures rows { result.rows.indices ≡ finite.empty }
        ensures exprs { result.exprs ≡ finite.empty }
        ensures noted { result.noted ≡ finite.empty }
        ensures kept { result.kept ≡ finite.empty }
    {
        AddressMap {
            vars: Places::new(alloc),
            rows: Places::new(alloc),
            exprs: ItemMap::new(alloc),
            notes: Notes::new(alloc),
            kept: ItemMap::new(alloc),
        }
    }

    /// Makes room, so that as many variables and as many rows can be put without memory.
    pub fn reserve(&mut self, vars: usize, rows: usize) -> Result<(), Memory>
        ensures vars { OnOk result (vars ≤ self.new.vars.spare) }
        ensures rows { OnOk result (rows ≤ self.new.rows.spare) }
        ensures same_vars { self.new.vars.indices ≡ self.old.vars.indices }
        ensures same_rows { self.new.rows.indices ≡ self.old.rows.indices }
        ensures exprs { self.new.exprs ≡ self.old.exprs }
        ensures spare_vars { self.old.vars.spare ≤ self.new.vars.spare }
        ensures spare_rows { self.old.rows.spare ≤ self.new.rows.spare }
        ensures noted { self.new.noted ≡ self.old.noted }
        ensures kept { self.new.kept ≡ self.old.kept }
    {
        self.vars.reserve(vars)?;
        self.rows.reserve(rows)
    }

    /// The index of a leaf variable, and `None` where the address has none.
    pub fn var_index(&self, at: &Address) -> Option<usize>
        ensures value { result ≡ finite.get self.now.vars.indices at.now }
        ensures one_to_one { AreIndicesOneToOne self.now.vars.indices }
    {
        self.vars.index(at)
    }

    /// The index of a leaf row, and `None` where the address has none.
    pub fn row_index(&self, at: &Address) -> Option<usize>
        ensures value { result ≡ finite.get self.now.rows.indices at.now }
        ensures one_to_one { AreIndicesOneToOne self.now.rows.indices }
    {
        self.rows.index(at)
    }

    /// The leaf variable that has an index, and `None` where none has it.
    pub fn var_at(&self, i: usize) -> Option<Address>
        ensures value { IsAddressAt self.now.vars.indices i result }
        ensures one_to_one { AreIndicesOneToOne self.now.vars.indices }
    {
        self.vars.address(i)
    }

    /// The leaf row that has an index, and `None` where none has it.
    pub fn row_at(&self, i: usize) -> Option<Address>
        ensures value { IsAddressAt self.now.rows.indices i result }
        ensures one_to_one { AreIndicesOneToOne self.now.rows.indices }
    {
        self.rows.address(i)
    }

    /// A variable's expression over leaf variables, and `None` where it has none.
    pub fn expr(&self, at: &Address) -> Option<&Aff>
        ensures { option_copied result ≡ finite.get self.now.exprs at.now }
    {
        self.exprs.get(at)
    }

    /// Puts a leaf variable with its index, neither of which may be there. With `spare` above 0 it
    /// can't be refused.
    pub fn put_var(&mut self, at: Address, i: usize) -> Result<(), Memory>
        requires address_free { finite.get self.old.vars.indices at ≡ None }
        requires index_free { IsIndexFree self.old.vars.indices i }
        ensures ok { OnOk result
            (self.new.vars.indices ≡ finite.insert self.old.vars.indices at i) }
        ensures err { OnErr result (self.new.vars.indices ≡ self.old.vars.indices) }
        ensures succeeds { 0 < self.old.vars.spare → IsOk result }
        ensures spare { self.old.vars.spare ≤ self.new.vars.spare + 1 }
        ensures rows { self.new.rows ≡ self.old.rows }
        ensures exprs { self.new.exprs ≡ self.old.exprs }
        ensures one_to_one { AreIndicesOneToOne self.new.vars.indices }
        ensures noted { self.new.noted ≡ self.old.noted }
        ensures kept { self.new.kept ≡ self.old.kept }
    {
        self.vars.put(at, i)
    }

    /// Puts a leaf row with its index, neither of which may be there. With `spare` above 0 it can't
    /// be refused.
    pub fn put_row(&mut self, at: Address, i: usize) -> Result<(), Memory>
        requires address_free { finite.get self.old.rows.indices at ≡ None }
        requires index_free { IsIndexFree self.old.rows.indices i }
        ensures ok { OnOk result
            (self.new.rows.indices ≡ finite.insert self.old.rows.indices at i) }
        ensures err { OnErr result (self.new.rows.indices ≡ self.old.rows.indices) }
        ensures succeeds { 0 < self.old.rows.spare → IsOk result }
        ensures spare { self.old.rows.spare ≤ self.new.rows.spare + 1 }
        ensures vars { self.new.vars ≡ self.old.vars }
        ensures exprs { self.new.exprs ≡ self.old.exprs }
        ensures one_to_one { AreIndicesOneToOne self.new.rows.indices }
        ensures noted { self.new.noted ≡ self.old.noted }
        ensures kept { self.new.kept ≡ self.old.kept }
    {
        self.rows.put(at, i)
    }

    /// Takes a leaf variable out, and answers its index, or `None` where it had none.
    pub fn drop_var(&mut self, at: &Address) -> Option<usize>
        ensures index { result ≡ finite.get self.old.vars.indices at.now }
        ensures removed { self.new.vars.indices ≡ finite.remove self.old.vars.indices at.now }
        ensures spare { self.old.vars.spare ≤ self.new.vars.spare }
        ensures rows { self.new.rows ≡ self.old.rows }
        ensures exprs { self.new.exprs ≡ self.old.exprs }
        ensures noted { self.new.noted ≡ self.old.noted }
        ensures kept { self.new.kept ≡ self.old.kept }
    {
        self.vars.remove(at)
    }

    /// Takes a leaf row out, and answers its index, or `None` where it had none.
    pub fn drop_row(&mut self, at: &Address) -> Option<usize>
        ensures index { result ≡ finite.get self.old.rows.indices at.now }
        ensures removed { self.new.rows.indices ≡ finite.remove self.old.rows.indices at.now }
        ensures spare { self.old.rows.spare ≤ self.new.rows.spare }
        ensures vars { self.new.vars ≡ self.old.vars }
        ensures exprs { self.new.exprs ≡ self.old.exprs }
        ensures noted { self.new.noted ≡ self.old.noted }
        ensures kept { self.new.kept ≡ self.old.kept }
    {
        self.rows.remove(at)
    }

    /// Sets a variable's expression, and answers the one before.
    pub fn put_expr(&mut self, at: Address, f: Aff) -> Result<Option<Aff>, Memory>
        ensures before { IfOk result (λ before. before ≡ finite.get self.old.exprs at) }
        ensures ok { OnOk result (self.new.exprs ≡ finite.insert self.old.exprs at f) }
        ensures err { OnErr result (self.new.exprs ≡ self.old.exprs) }
        ensures vars { self.new.vars ≡ self.old.vars }
        ensures rows { self.new.rows ≡ self.old.rows }
        ensures noted { self.new.noted ≡ self.old.noted }
        ensures kept { self.new.kept ≡ self.old.kept }
    {
        match self.exprs.put(at, f) {
            Ok(before) => Ok(before),
            Err(refused) => Err(refused.1),
        }
    }

    /// Takes a variable's expression away and answers it, or `None` where it had none.
    pub fn drop_expr(&mut self, at: &Address) -> Option<Aff>
        ensures before { result ≡ finite.get self.old.exprs at.now }
        ensures removed { self.new.exprs ≡ finite.remove self.old.exprs at.now }
        ensures vars { self.new.vars ≡ self.old.vars }
        ensures rows { self.new.rows ≡ self.old.rows }
        ensures noted { self.new.noted ≡ self.old.noted }
        ensures kept { self.new.kept ≡ self.old.kept }
    {
        self.exprs.remove(at)
    }

    /// Removes all expressions.
    pub fn clear_exprs(&mut self)
        ensures removed { self.new.exprs ≡ finite.empty }
        ensures vars { self.new.vars ≡ self.old.vars }
        ensures rows { self.new.rows ≡ self.old.rows }
        ensures noted { self.new.noted ≡ self.old.noted }
        ensures kept { self.new.kept ≡ self.old.kept }
    {
        self.exprs.clear();
    }

    /// How many leaf variables there are.
    pub fn var_count(&self) -> usize
        ensures { result ≡ length (addresses self.now.vars.indices) }
    {
        self.vars.len()
    }

    /// How many leaf rows there are.
    pub fn row_count(&self) -> usize
        ensures { result ≡ length (addresses self.now.rows.indices) }
    {
        self.rows.len()
    }

    /// The leaf variables in the order of their addresses, each with its index.
    pub fn vars(&self) -> EntriesLeft<'_, usize>
        ensures { result ≡ finite.entries self.now.vars.indices }
    {
        self.vars.iter()
    }

    /// The leaf variables at and below the address of an item of the model, each with its index.
    pub fn vars_of(&self, item: &Address) -> RankedItems<'_, (Address, usize)>
        ensures { result ≡ filter (λ e. is_of item.now e.0) (finite.entries self.now.vars.indices) }
    {
        self.vars.of_item(item)
    }

    /// The leaf rows in the order of their addresses, each with its index.
    pub fn rows(&self) -> EntriesLeft<'_, usize>
        ensures { result ≡ finite.entries self.now.rows.indices }
    {
        self.rows.iter()
    }

    /// The leaf rows at and below the address of an item of the model, each with its index.
    pub fn rows_of(&self, item: &Address) -> RankedItems<'_, (Address, usize)>
        ensures { result ≡ filter (λ e. is_of item.now e.0) (finite.entries self.now.rows.indices) }
    {
        self.rows.of_item(item)
    }

    /// Notes that an item mentions a variable, where that isn't noted yet.
    pub fn note(&mut self, var: Address, item: Address) -> Result<(), Memory>
        requires { finite.get (noted_in self.old.noted var) item ≡ None }
        ensures ok { OnOk result (IsNotedAt self.old.noted self.new.noted var
            (with_item (noted_in self.old.noted var) item)) }
        ensures err { OnErr result (self.new.noted ≡ self.old.noted) }
        ensures vars { self.new.vars ≡ self.old.vars }
        ensures rows { self.new.rows ≡ self.old.rows }
        ensures exprs { self.new.exprs ≡ self.old.exprs }
        ensures kept { self.new.kept ≡ self.old.kept }
    {
        self.notes.note(var, item)
    }

    /// Takes the note away that an item mentions a variable; false exactly where there is none.
    pub fn unnote(&mut self, var: &Address, item: &Address) -> bool
        ensures there { result ≡ is_some (finite.get (noted_in self.old.noted var.now) item.now) }
        ensures taken { IsNotedAt self.old.noted self.new.noted var.now
            (without_item (noted_in self.old.noted var.now) item.now) }
        ensures vars { self.new.vars ≡ self.old.vars }
        ensures rows { self.new.rows ≡ self.old.rows }
        ensures exprs { self.new.exprs ≡ self.old.exprs }
        ensures kept { self.new.kept ≡ self.old.kept }
    {
        self.notes.unnote(var, item)
    }

    /// The items that mention a variable, as far as that is noted, and `None` where none is.
    pub fn noted(&self, var: &Address) -> Option<&AddressSet>
        ensures { option_copied result ≡ finite.get self.now.noted var.now }
    {
        self.notes.noted(var)
    }

    /// Whether it is noted that an item mentions a variable.
    pub fn is_noted(&self, var: &Address, item: &Address) -> bool
        ensures there { result
            ≡ is_some (finite.get (noted_in self.now.noted var.now) item.now) }
        ensures free { result ≡ false
            → finite.get (noted_in self.now.noted var.now) item.now ≡ None }
    {
        self.notes.is_noted(var, item)
    }

    /// Takes all notes of mentions away.
    pub fn clear_notes(&mut self)
        ensures removed { self.new.noted ≡ finite.empty }
        ensures vars { self.new.vars ≡ self.old.vars }
        ensures rows { self.new.rows ≡ self.old.rows }
        ensures exprs { self.new.exprs ≡ self.old.exprs }
        ensures kept { self.new.kept ≡ self.old.kept }
    {
        self.notes.clear();
    }

    /// Marks a variable as kept, where it isn't marked yet: its own leaf, or a child's, stands for
    /// it as it is.
    pub fn mark_kept(&mut self, var: Address) -> Result<(), Memory>
        requires { finite.get self.old.kept var ≡ None }
        ensures ok { OnOk result (self.new.kept ≡ with_item self.old.kept var) }
        ensures err { OnErr result (self.new.kept ≡ self.old.kept) }
        ensures vars { self.new.vars ≡ self.old.vars }
        ensures rows { self.new.rows ≡ self.old.rows }
        ensures exprs { self.new.exprs ≡ self.old.exprs }
        ensures noted { self.new.noted ≡ self.old.noted }
    {
        match self.kept.put_new(var, ()) {
            Ok(()) => Ok(()),
            Err(refused) => Err(refused.1),
        }
    }

    /// Takes the mark of a kept variable away; false exactly where there is none.
    pub fn unmark_kept(&mut self, var: &Address) -> bool
        ensures there { result ≡ is_some (finite.get self.old.kept var.now) }
        ensures removed { self.new.kept ≡ without_item self.old.kept var.now }
        ensures vars { self.new.vars ≡ self.old.vars }
        ensures rows { self.new.rows ≡ self.old.rows }
        ensures exprs { self.new.exprs ≡ self.old.exprs }
        ensures noted { self.new.noted ≡ self.old.noted }
    {
        self.kept.remove(var).is_some()
    }

    /// Whether a variable is marked as kept.
    pub fn is_kept(&self, var: &Address) -> bool
        ensures there { result ≡ is_some (finite.get self.now.kept var.now) }
        ensures free { result ≡ false → finite.get self.now.kept var.now ≡ None }
    {
        self.kept.get(var).is_some()
    }

    /// Takes all marks of kept variables away.
    pub fn clear_kept(&mut self)
        ensures removed { self.new.kept ≡ finite.empty }
        ensures vars { self.new.vars ≡ self.old.vars }
        ensures rows { self.new.rows ≡ self.old.rows }
        ensures exprs { self.new.exprs ≡ self.old.exprs }
        ensures noted { self.new.noted ≡ self.old.noted }
    {
        self.kept.clear();
    }

    /// Takes all out: leaves, expressions, notes and marks.
    pub fn clear(&mut self)
        ensures vars { self.new.vars.indices ≡ finite.empty }
        ensures rows { self.new.rows.indices ≡ finite.empty }
        ensures exprs { self.new.exprs ≡ finite.empty }
        ensures noted { self.new.noted ≡ finite.empty }
        ensures kept { self.new.kept ≡ finite.empty }
        ensures spare_vars { self.old.vars.spare ≤ self.new.vars.spare }
        ensures spare_rows { self.old.rows.spare ≤ self.new.rows.spare }
    {
        self.vars.clear();
        self.rows.clear();
        self.exprs.clear();
        self.notes.clear();
        self.kept.clear();
    }
}
