//! The store of the solver's model.
ghost use Rattle.std.specs.Prelude.{◌≡◌, ◌+◌, ◌<◌, ◌≤◌, None, Some, IsOk, IfOk, OnOk, OnErr};
ghost use Rattle.std.specs.FinMap as finite;
ghost use Rattle.std.specs.Option.{option_copied};
ghost use Rattle.slab.specs.Slab.{get};
ghost use Rattle.solver_store.specs.KeptModel.{by_key, room};
ghost use Rattle.solver_store.specs.SolverModel.{IsUsed, no_leaves, one_more, with_objective, with_row, with_var, without_row, without_var};

use crate::{LeafObjective, LeafRow, LeafVar};
use lists::Memory;
use slab::Slab;
use std::alloc::Global;
use std::marker::Model;

/// The model that a solver works on: variables and rows, each under an index that stays its own
/// until it is removed, and an objective.
///
/// Contracts see finite maps by index, the objective and the count of calls, and beside these how
/// many variables and rows can still be added without memory. Each call costs the same however
/// large the model is, but for `clear` and for an add that has to make room.
#[derive(Debug, Drop)]
pub struct SolverModel {
    vars: Slab<LeafVar>,
    rows: Slab<LeafRow>,
    objective: Option<LeafObjective>,
    calls: u64,
}

impl Model for SolverModel {
    ghost use Rattle.solver_store.specs.SolverModel.{StoredLeaves, stored_code};

    ghost Value = { StoredLeaves };

    ghost coded = { stored_code };

    ghost use Rattle.solver_store.specs.KeptModel.{stored_in};

    ghost view = { stored_in };
}

impl SolverModel {
    /// A model with nothing in it, which takes no memory.
    pub fn new(alloc: Global) -> SolverModel
        ensures { result.leaves ≡ no_leaves 0 }
    {
        SolverModel {
            vars: Slab::new(alloc),
            rows: Slab::new(alloc),
            objective: None,
            calls: 0,
        }
    }

    /// Makes room, so that as many variables and as many rows can be added without memory.
    pub fn reserve(&mut self, vars: usize, rows: usize) -> Result<(), Memory>
        ensures vars { OnOk result (vars ≤ self.new.spare_vars) }
        ensures rows { OnOk result (rows ≤ self.new.spare_rows) }
        ensures same { self.new.leaves ≡ self.old.leaves }
        ensures spare_vars { self.old.spare_vars ≤ self.new.spare_vars }
        ensures spare_rows { self.old.spare_rows ≤ self.new.spare_rows }
    {
        self.vars.reserve(vars)?;
        self.rows.reserve(rows)?;
        Ok(())
    }

    /// Adds a variable, and answers its index, which was free. With `spare_vars` above 0 it can't
    /// be refused.
    pub fn add_var(&mut self, var: LeafVar) -> Result<usize, Memory>
        ensures free { IfOk result (λ i. finite.get self.old.leaves.vars i ≡ None) }
        ensures ok { IfOk result (λ i. self.new.leaves ≡ with_var self.old.leaves i var) }
        ensures err { OnErr result (self.new.leaves ≡ self.old.leaves) }
        ensures succeeds { 0 < self.old.spare_vars → IsOk result }
        ensures spare_vars { self.old.spare_vars ≤ self.new.spare_vars + 1 }
        ensures spare_rows { self.new.spare_rows ≡ self.old.spare_rows }
    {
        let i = insert(&mut self.vars, var)?;
        self.calls = one_more(self.calls);
        Ok(i)
    }

    /// Adds a row, and answers its index, which was free. With `spare_rows` above 0 it can't be
    /// refused.
    pub fn add_row(&mut self, row: LeafRow) -> Result<usize, Memory>
        ensures free { IfOk result (λ i. finite.get self.old.leaves.rows i ≡ None) }
        ensures ok { IfOk result (λ i. self.new.leaves ≡ with_row self.old.leaves i row) }
        ensures err { OnErr result (self.new.leaves ≡ self.old.leaves) }
        ensures succeeds { 0 < self.old.spare_rows → IsOk result }
        ensures spare_rows { self.old.spare_rows ≤ self.new.spare_rows + 1 }
        ensures spare_vars { self.new.spare_vars ≡ self.old.spare_vars }
    {
        let i = insert(&mut self.rows, row)?;
        self.calls = one_more(self.calls);
        Ok(i)
    }

    /// Puts another variable at an index in use.
    pub fn change_var(&mut self, i: usize, var: LeafVar)
        requires { IsUsed self.old.leaves.vars i }
        ensures changed { self.new.leaves ≡ with_var self.old.leaves i var }
        ensures spare_vars { self.new.spare_vars ≡ self.old.spare_vars }
        ensures spare_rows { self.new.spare_rows ≡ self.old.spare_rows }
    {
        replace(&mut self.vars, i, var);
        self.calls = one_more(self.calls);
    }

    /// Puts another row at an index in use, and answers the old one.
    pub fn change_row(&mut self, i: usize, row: LeafRow) -> LeafRow
        requires { IsUsed self.old.leaves.rows i }
        ensures old { finite.get self.old.leaves.rows i ≡ Some result }
        ensures changed { self.new.leaves ≡ with_row self.old.leaves i row }
        ensures spare_vars { self.new.spare_vars ≡ self.old.spare_vars }
        ensures spare_rows { self.new.spare_rows ≡ self.old.spare_rows }
    {
        let old = replace(&mut self.rows, i, row);
        self.calls = one_more(self.calls);
        old
    }

    /// Sets the objective, or takes it away.
    pub fn set_objective(&mut self, objective: Option<LeafObjective>)
        ensures set { self.new.leaves ≡ with_objective self.old.leaves objective }
        ensures spare_vars { self.new.spare_vars ≡ self.old.spare_vars }
        ensures spare_rows { self.new.spare_rows ≡ self.old.spare_rows }
    {
        self.objective = objective;
        self.calls = one_more(self.calls);
    }

    /// Takes out the variable at an index in use, which is free then. What names it is not looked
    /// at.
    pub fn remove_var(&mut self, i: usize)
        requires { IsUsed self.old.leaves.vars i }
        ensures removed { self.new.leaves ≡ without_var self.old.leaves i }
        ensures spare_vars { self.old.spare_vars ≤ self.new.spare_vars }
        ensures spare_rows { self.new.spare_rows ≡ self.old.spare_rows }
    {
        remove(&mut self.vars, i);
        self.calls = one_more(self.calls);
    }

    /// Takes out the row at an index in use, which is free then, and answers it.
    pub fn remove_row(&mut self, i: usize) -> LeafRow
        requires { IsUsed self.old.leaves.rows i }
        ensures old { finite.get self.old.leaves.rows i ≡ Some result }
        ensures removed { self.new.leaves ≡ without_row self.old.leaves i }
        ensures spare_vars { self.new.spare_vars ≡ self.old.spare_vars }
        ensures spare_rows { self.old.spare_rows ≤ self.new.spare_rows }
    {
        let old = remove(&mut self.rows, i);
        self.calls = one_more(self.calls);
        old
    }

    /// Empties the model, whose count of calls stays.
    pub fn clear(&mut self)
        ensures emptied { self.new.leaves ≡ no_leaves self.old.leaves.calls }
        ensures spare_vars { self.old.spare_vars ≤ self.new.spare_vars }
        ensures spare_rows { self.old.spare_rows ≤ self.new.spare_rows }
    {
        self.vars.clear();
        self.rows.clear();
        self.objective = None;
    }

    /// How many calls added, changed, set or removed something, up to the greatest `u64`.
    pub fn calls(&self) -> u64
        ensures { result ≡ self.now.leaves.calls }
    {
        self.calls
    }

    /// The variable at an index, and `None` where the index isn't in use.
    pub fn var(&self, i: usize) -> Option<LeafVar>
        ensures { result ≡ finite.get self.now.leaves.vars i }
    {
        self.vars.get(i).copied()
    }

    /// The row at an index, and `None` where the index isn't in use.
    pub fn row(&self, i: usize) -> Option<&LeafRow>
        ensures { option_copied result ≡ finite.get self.now.leaves.rows i }
    {
        self.rows.get(i)
    }

    /// The objective, and `None` where none is set.
    pub fn objective(&self) -> Option<&LeafObjective>
        ensures { option_copied result ≡ self.now.leaves.objective }
    {
        self.objective.as_ref()
    }
}

// A call more, unless the count is at its end.
fn one_more(calls: u64) -> u64
    ensures { result ≡ one_more calls }
{
    calls.saturating_add(1)
}

// Puts a value in at a free key, and answers the key.
fn insert<X: Drop>(values: &mut Slab<X>, value: X) -> Result<usize, Memory>
    ensures free { IfOk result (λ i. finite.get (by_key values.old) i ≡ None) }
    ensures ok { IfOk result (λ i. by_key values.new ≡ finite.insert (by_key values.old) i value) }
    ensures err { OnErr result (by_key values.new ≡ by_key values.old) }
    ensures succeeds { 0 < room values.old → IsOk result }
    ensures room { room values.old ≤ room values.new + 1 }
{
    Ok(values.insert(value)?)
}

// Puts another value at a key in use, and answers the old one.
fn replace<X>(values: &mut Slab<X>, i: usize, value: X) -> X
    requires { IsUsed (by_key values.old) i }
    ensures old { finite.get (by_key values.old) i ≡ Some result }
    ensures changed { by_key values.new ≡ finite.insert (by_key values.old) i value }
    ensures room { room values.new ≡ room values.old }
{
    let old = values.remove(i);
    values.insert_reserved(value);
    old
}

// Takes out the value at a key in use.
fn remove<X>(values: &mut Slab<X>, i: usize) -> X
    requires { IsUsed (by_key values.old) i }
    ensures old { finite.get (by_key values.old) i ≡ Some result }
    ensures removed { by_key values.new ≡ finite.remove (by_key values.old) i }
    ensures room { room values.old ≤ room values.new }
{
    values.remove(i)
}
