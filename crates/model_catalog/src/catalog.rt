//! The kept model.
ghost use Rattle.std.specs.Prelude.{◌≡◌, length, OnOk, unwrap_or};
ghost use Rattle.std.specs.Option.{option_map};
ghost use Rattle.user_model.specs.Consistent.{IsConsistent, IsWithinLimits};
ghost use Rattle.user_model.specs.Model.{empty_model, total_terms, variables};
ghost use Rattle.model_catalog.specs.Exchange.{HasRoom, HasRoomFor, HasSpare, IsExchange, IsNoLess, KeepsRoom, contents, exchanged, standing};
ghost use Rattle.model_catalog.specs.Named.{AreNameChanges, HasStandingNames};

use crate::exchange::Exchange;
use crate::index::{exchange_rows, list_variables};
use crate::names::{NameChanges, exchange_names};
use crate::room::More;
use crate::terms::changed_terms;
use crate::variable::Variable;
use name_index::NameTable;
use numbered_list::Numbered;
use ratio_core::Memory;
use std::alloc::Global;
use std::marker::Model;
use std::mem;
use user_model::{Groups, NextNumbers, Objective, Rows};

/// A model with what finds things in it. Contracts see the model, and beside it the room: how many
/// groups, rows, variables and names can be put in without memory.
#[derive(Drop)]
pub struct Catalog {
    pub(crate) groups: Groups,
    pub(crate) rows: Rows,
    pub(crate) objective: Objective,
    pub(crate) next: NextNumbers,
    pub(crate) kept: Numbered<Variable>,
    pub(crate) variable_names: NameTable,
    pub(crate) row_names: NameTable,
    // how many terms the rows and the objective have
    pub(crate) terms: u64,
}

impl Model for Catalog {
    ghost use Rattle.model_catalog.specs.Catalog.{Catalog, catalog_code};

    ghost Value = { Catalog };

    ghost coded = { catalog_code };

    ghost use Rattle.model_catalog.specs.Kept.{IsCatalogKept, catalog_of};

    ghost view = { catalog_of };

    ghost invariant = { IsCatalogKept };
}

impl Catalog {
    /// An empty model, which takes no memory.
    pub fn new(alloc: Global) -> Catalog
        ensures { result.model ≡ empty_model }
    {
        Catalog {
            groups: Numbered::new(alloc),
            rows: Numbered::new(alloc),
            objective: Objective::Feasibility,
            next: NextNumbers {
                group: 0,
                variable: 0,
                row: 0,
            },
            kept: Numbered::new(alloc),
            variable_names: NameTable::new(alloc),
            row_names: NameTable::new(alloc),
            terms: 0,
        }
    }

    /// The groups in the order of their numbers.
    pub fn groups(&self) -> &Groups
        ensures value { result.now.items ≡ self.now.model.groups }
        ensures consistent { IsConsistent self.now.model }
        ensures within { IsWithinLimits self.now.model }
    {
        &self.groups
    }

    /// The rows in the order of their numbers.
    pub fn rows(&self) -> &Rows
        ensures value { result.now.items ≡ self.now.model.rows }
        ensures consistent { IsConsistent self.now.model }
        ensures within { IsWithinLimits self.now.model }
    {
        &self.rows
    }

    pub fn objective(&self) -> &Objective
        ensures value { result.now ≡ self.now.model.objective }
        ensures consistent { IsConsistent self.now.model }
        ensures within { IsWithinLimits self.now.model }
    {
        &self.objective
    }

    /// The numbers that the next group, variable and row are given.
    pub fn next(&self) -> NextNumbers
        ensures { result ≡ self.now.model.next }
    {
        self.next
    }

    pub fn variable_count(&self) -> usize
        ensures { result ≡ length (variables self.now.model) }
    {
        self.kept.len()
    }

    /// How many terms all rows and the objective have.
    pub fn term_count(&self) -> u64
        ensures { result ≡ total_terms self.now.model }
    {
        self.terms
    }

    /// Makes room for more groups, rows and variables, and for the names of more variables and
    /// rows.
    pub fn reserve(&mut self, more: &More) -> Result<(), Memory>
        ensures model { self.new.model ≡ self.old.model }
        ensures ok { OnOk result (HasRoom more.now self.new) }
        ensures room { IsNoLess self.old.room self.new.room }
    {
        self.groups.reserve(more.groups)?;
        self.rows.reserve(more.rows)?;
        self.kept.reserve(more.variables)?;
        self.variable_names.reserve(more.variable_names)?;
        self.row_names.reserve(more.row_names)
    }

    /// Gives up the places of groups, rows and variables that are gone, where they are more than
    /// those that stand. An exchange that brings one of these back then takes longer.
    pub fn sweep(&mut self)
        ensures { self.new ≡ self.old }
    {
        self.groups.sweep();
        self.rows.sweep();
        self.kept.sweep();
    }

    /// Puts the contents in, and takes those out that stood there, so that the same exchange then
    /// leads back. It takes no memory.
    ///
    /// `names` lists each variable and each row whose name comes, goes or changes, and afterwards
    /// the names that were there.
    pub fn exchange(&mut self, with: &mut Exchange, names: &mut NameChanges)
        requires changes { IsExchange with.old }
        requires consistent { IsConsistent (exchanged with.old self.old.model) }
        requires within { IsWithinLimits (exchanged with.old self.old.model) }
        requires names { AreNameChanges names.old self.old.model
            (exchanged with.old self.old.model) }
        requires room { HasRoomFor with.old names.old self.old }
        requires spare { HasSpare names.old self.old.room }
        ensures model { self.new.model ≡ exchanged with.old self.old.model }
        ensures contents { contents with.new ≡ standing self.old.model (contents with.old) }
        ensures standing { HasStandingNames self.old.model names.old names.new }
        ensures changes { IsExchange with.new }
        ensures back { exchanged with.new self.new.model ≡ self.old.model }
        ensures names { AreNameChanges names.new self.new.model self.old.model }
        ensures room { HasRoomFor with.new names.new self.new }
        ensures kept { KeepsRoom names.old self.old.room self.new.room }
    {
        let objective_was = self.objective.term_count();
        let put_in = changed_terms(&with.rows);
        list_variables(&mut self.kept, names.group, &names.variables);
        exchange_names(&mut self.variable_names, &mut names.variables);
        exchange_names(&mut self.row_names, &mut names.rows);
        self.groups.exchange_all(&mut with.groups);
        exchange_rows(&mut self.rows, &mut self.kept, &mut with.rows);
        exchange_objective(&mut self.objective, &mut with.objective);
        mem::swap(&mut self.next, &mut with.next);
        let taken_out = changed_terms(&with.rows);
        self.terms = self.terms + put_in - taken_out - objective_was + self.objective.term_count();
    }
}

// Lets another objective, if there is one, change places with the objective.
fn exchange_objective(objective: &mut Objective, other: &mut Option<Objective>)
    ensures objective { objective.new ≡ unwrap_or other.old objective.old }
    ensures other { other.new ≡ option_map (λ _. objective.old) other.old }
{
    if let Some(other) = other {
        mem::swap(objective, other);
    }
}
