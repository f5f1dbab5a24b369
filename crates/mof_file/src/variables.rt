//! The variables of a file.
ghost use Rattle.serde_json.specs.View.{view};
ghost use Rattle.mof_file.specs.File.{add_name, variables_of, with_name};
ghost use Rattle.mof_values.specs.Values.{a_name, walk_at};
ghost use Rattle.mof_values.specs.Walked.{MeetsWalk};

use crate::items::{AddItem, add_each};
use indexmap::IndexSet;
use mof_values::{MofFault, array, at_key, field, here, name, require_object};
use name_index::Name;
use serde_json::Value;
use std::alloc::Global;

/// The names of the variables at a key, in their order.
#[tactic(auto, using(mof_values::specs::WalkLaws::walk_at_steps))]
pub(crate) fn variables_field(
    alloc: Global,
    key: &str,
    value: &Value,
) -> Result<IndexSet<Name>, MofFault>
    ensures { MeetsWalk (λ names. names.keys) result
        (walk_at variables_of key.now (view value.now)) }
{
    let found = field(alloc, key, value)?;
    at_key(alloc, key, variable_list(alloc, found))
}

#[tactic(auto, unfolding(crate::specs::File::variables_of))]
fn variable_list(alloc: Global, value: &Value) -> Result<IndexSet<Name>, MofFault>
    ensures { MeetsWalk (λ names. names.keys) result (variables_of (view value.now)) }
{
    let items = array(alloc, value)?;
    let mut names = IndexSet::new(alloc);
    add_each(alloc, &(), &mut names, items)?;
    Ok(names)
}

impl AddItem<()> for IndexSet<Name> {
    ghost use Rattle.mof_file.specs.File.{add_variable};
    ghost use Rattle.mof_file.specs.Functions.{Known};

    ghost Seen = { Known };

    ghost seen = { λ names. names.keys };

    ghost with_item = { λ _. add_variable };

    #[tactic(auto, unfolding(crate::specs::File::add_variable))]
    fn add_item(&mut self, alloc: Global, _known: &(), item: &Value) -> Result<(), MofFault> {
        require_object(alloc, item)?;
        add_name(alloc, self, item)
    }
}

#[tactic(auto, unfolding(crate::specs::File::add_name))]
fn add_name(alloc: Global, names: &mut IndexSet<Name>, item: &Value) -> Result<(), MofFault>
    ensures { MeetsWalk (λ _. names.new.keys) result (add_name names.old.keys (view item.now)) }
{
    let name = name_field(alloc, "name", item)?;
    put_name(alloc, names, name)
}

// Puts a name last that no variable has.
fn put_name(alloc: Global, names: &mut IndexSet<Name>, name: Name) -> Result<(), MofFault>
    ensures { MeetsWalk (λ _. names.new.keys) result (with_name names.old.keys name) }
{
    if names.contains(&name) {
        return Err(MofFault::DuplicateName { place: here(alloc) }.under_key(alloc, "name"));
    }
    names.insert(name)?;
    Ok(())
}

#[tactic(auto, using(mof_values::specs::WalkLaws::walk_at_steps))]
fn name_field(alloc: Global, key: &str, value: &Value) -> Result<Name, MofFault>
    ensures { MeetsWalk (λ name. name) result (walk_at a_name key.now (view value.now)) }
{
    let found = field(alloc, key, value)?;
    at_key(alloc, key, name(alloc, found))
}
