//! The user's model: edits, and taking them back.
ghost use Rattle.std.specs.Prelude.{◌≡◌, [], List, Some, None, IfOk, IfErr, OnErr, MatchResult};
ghost use Rattle.std.specs.Option.{option_copied, option_map};
ghost use Rattle.user_model.specs.Consistent.{IsConsistent, IsWithinLimits};
ghost use Rattle.user_model.specs.Edited.{edited};
ghost use Rattle.user_model.specs.Model as model;
ghost use Rattle.user_model.specs.Refusals as refusals;
ghost use Rattle.user_model.specs.Undone.{IsUndo, before};
ghost use Rattle.user_model.specs.Valid.{IsValid};
ghost use Rattle.model_store.specs.declared.parked.Parked.{Parked};
ghost use Rattle.model_plans.specs.Plans.{LeadsToTarget};
ghost use Rattle.user_model.specs.Accepted.{LeadsTo};
ghost use Rattle.model_store.specs.Store.{HasParked, IsButLast, IsLastOf, refusal_of};
ghost use Rattle.user_model.specs.Model.{name_at};

use crate::Parked;
use crate::parking::{NameCounts, park, reserve, take_last};
use aff_core::{Address, Root};
use model_catalog::{Catalog, Exchange, variable_at};
use model_plans::{EditPlan, planned};
use model_refusals::accepted;
use name_index::Name;
use std::alloc::Global;
use std::marker::Model;
use user_model::{ApplyFault, Edit, Groups, Objective, Refusal, Rows, Undo};

/// The user's model, and what is kept to take back its last edits.
///
/// Contracts see the model, and beside it the list of what is parked: an entry for each undo that
/// is neither taken back nor settled, the latest last.
#[derive(Drop)]
pub struct UserModel {
    alloc: Global,
    catalog: Catalog,
    parked: Vec<Parked>,
    // how many names all entries put back at most
    names: NameCounts,
}

impl Model for UserModel {
    ghost use Rattle.model_store.specs.Store.{StoredModel, stored_code};

    ghost Value = { StoredModel };

    ghost coded = { stored_code };

    ghost use Rattle.model_store.specs.Parking.{IsStoreSound, stored_of};

    ghost view = { stored_of };

    ghost invariant = { IsStoreSound };
}

impl UserModel {
    /// An empty model, which takes no memory.
    pub fn new(alloc: Global) -> UserModel
        ensures model { result.model ≡ model.empty_model }
        ensures parked { result.parked ≡ [] }
    {
        UserModel {
            alloc,
            catalog: Catalog::new(alloc),
            parked: Vec::new(alloc),
            names: NameCounts {
                variables: 0,
                rows: 0,
            },
        }
    }

    /// The groups in the order of their numbers.
    pub fn groups(&self) -> &Groups
        ensures value { result.now.items ≡ self.now.model.groups }
        ensures valid { IsValid self.now.model }
    {
        self.catalog.groups()
    }

    /// The rows in the order of their numbers.
    pub fn rows(&self) -> &Rows
        ensures value { result.now.items ≡ self.now.model.rows }
        ensures valid { IsValid self.now.model }
    {
        self.catalog.rows()
    }

    pub fn objective(&self) -> &Objective
        ensures value { result.now ≡ self.now.model.objective }
        ensures valid { IsValid self.now.model }
    {
        self.catalog.objective()
    }

    /// The address of the variable with a name, and none where no such variable stands.
    pub fn variable(&self, name: &Name) -> Option<Address>
        ensures { result ≡ option_map model.variable_address
            (model.variable_named self.now.model name.now) }
    {
        let number = self.catalog.variable(name)?;
        Some(Address::root(Root::Variable, number))
    }

    /// The name of the variable at an address, and none where no variable stands there.
    pub fn variable_name(&self, at: &Address) -> Option<&Name>
        ensures { option_copied result ≡ name_at self.now.model at.now }
    {
        let number = variable_at(at)?;
        self.catalog.variable_name(number)
    }

    /// Why an edit would be refused, the first reason in the order of refusals.
    pub fn check(&self, edit: &Edit) -> Result<(), Refusal>
        ensures { MatchResult result (λ _. refusals.first_refusal self.now.model edit.now ≡ None)
            (λ refusal. refusals.first_refusal self.now.model edit.now ≡ Some refusal) }
    {
        match accepted(&self.catalog, edit) {
            Ok(_) => Ok(()),
            Err(refusal) => Err(refusal),
        }
    }

    /// Makes an edit, and gives what leads back from it: `take_back` or `settle` is to have it.
    ///
    /// It is refused with the first refusal in their order. `Memory` comes after all of these, and
    /// before anything changes: whatever isn't made leaves everything as it was.
    pub fn apply(&mut self, edit: Edit) -> Result<Undo, ApplyFault>
        ensures ok { IfOk result (λ undo. refusals.first_refusal self.old.model edit ≡ None) }
        ensures model { IfOk result (λ undo. self.new.model ≡ edited self.old.model edit) }
        ensures valid { IfOk result (λ undo. IsValid self.new.model) }
        ensures edit { IfOk result (λ undo. LeadsTo self.old.model self.new.model) }
        ensures undo { IfOk result (IsUndo self.old.model self.new.model) }
        ensures before { IfOk result (λ undo. before self.new.model undo ≡ self.old.model) }
        ensures parked { IfOk result (HasParked self.old.parked self.new.parked self.new.model) }
        ensures refused { IfErr result (λ fault. refusal_of fault
            ≡ refusals.first_refusal self.old.model edit) }
        ensures kept { OnErr result (self.new ≡ self.old) }
    {
        let planned = plan_of(self.alloc, &self.catalog, &edit);
        // freed here, before the ways part
        drop(edit);
        let plan = planned?;
        let Ok(reserved) = reserve(&mut self.catalog, &mut self.parked, &plan, self.names) else {
            return Err(ApplyFault::Memory);
        };
        let undo = park(
            &mut self.catalog,
            &mut self.parked,
            plan,
            self.names,
            reserved,
        );
        self.names = reserved.names;
        Ok(undo)
    }

    /// Takes the last edit back that was not yet taken back or settled, whose undo this is. It
    /// takes no memory.
    pub fn take_back(&mut self, undo: Undo)
        requires last { (others : List Parked) × HasParked others self.old.parked self.old.model
            undo }
        requires edit { LeadsTo (before self.old.model undo) self.old.model }
        ensures model { self.new.model ≡ before self.old.model undo }
        ensures parked { IsButLast self.new.parked self.old.parked }
    {
        let mut names = take_last(&mut self.parked, &mut self.names).names;
        self.catalog.exchange(&mut Exchange::from(undo), &mut names);
    }

    /// Lets the last edit that was not yet taken back or settled stand for good, whose undo this
    /// is. Of several that wait the last is settled first, whatever the model is by then.
    pub fn settle(&mut self, undo: Undo)
        requires { IsLastOf self.old.parked undo }
        ensures model { self.new.model ≡ self.old.model }
        ensures parked { IsButLast self.new.parked self.old.parked }
    {
        drop(undo);
        drop(take_last(&mut self.parked, &mut self.names));
    }
}

// What an edit is to make of the model, or why it isn't made.
fn plan_of(alloc: Global, catalog: &Catalog, edit: &Edit) -> Result<EditPlan, ApplyFault>
    ensures ok { IfOk result (λ _. refusals.first_refusal catalog.now.model edit.now ≡ None) }
    ensures leads { IfOk result
        (LeadsToTarget catalog.now.model (edited catalog.now.model edit.now)) }
    ensures refused { IfErr result (λ fault. refusal_of fault
        ≡ refusals.first_refusal catalog.now.model edit.now) }
    ensures consistent { IsConsistent catalog.now.model }
    ensures within { IsWithinLimits catalog.now.model }
{
    // what this ensures of the model, as a plan asks for
    let _ = catalog.groups();
    let found = match accepted(catalog, edit) {
        Ok(found) => found,
        Err(refusal) => return Err(ApplyFault::Refused(refusal)),
    };
    match planned(alloc, catalog, &found) {
        Ok(plan) => Ok(plan),
        Err(_) => Err(ApplyFault::Memory),
    }
}
