//! The constraints of a file.
ghost use Rattle.std.specs.Prelude.{◌≡◌, ◌==◌, ◌&&◌, not, [], None, codes};
ghost use Rattle.set_core.specs.Shapes.{dimension_of, is_scalar};
ghost use Rattle.serde_json.specs.View.{view};
ghost use Rattle.mof_file.specs.File.{constraint_of, constraints_of, function_in_set_of, is_unequal, named_constraint_of, optional, row_name_of, set_for};
ghost use Rattle.mof_file.specs.Functions.{function_of_any};
ghost use Rattle.mof_values.specs.Values.{walk_at};
ghost use Rattle.mof_values.specs.Walked.{MeetsWalk};

use crate::functions::function;
use crate::items::{AddItem, add_each};
use indexmap::IndexSet;
use mof_values::{
    MofFault, array, at_key, field, given_name, here, read_set, require_object, text,
};
use name_index::Name;
use serde_json::Value;
use set_core::Set;
use std::alloc::Global;
use user_model::NamedFunc;

/// A constraint of a file. It has no name where the file gives none, or none that a row can have.
#[derive(Debug, Drop)]
pub struct FileConstraint {
    pub name: Option<Name>,
    pub func: NamedFunc,
    pub set: Set,
}

/// The constraints of a file, which may be missing.
#[tactic(auto, using(mof_values::specs::WalkLaws::at_met))]
pub(crate) fn optional_constraints(
    alloc: Global,
    known: &IndexSet<Name>,
    value: &Value,
) -> Result<Vec<FileConstraint>, MofFault>
    ensures { MeetsWalk (λ constraints. constraints.items) result
        (optional [] (constraints_of known.now.keys) "constraints" (view value.now)) }
{
    match value.get("constraints") {
        Some(found) => at_key(alloc, "constraints", constraint_list(alloc, known, found)),
        None => Ok(Vec::new(alloc)),
    }
}

#[tactic(auto, unfolding(crate::specs::File::constraints_of))]
fn constraint_list(
    alloc: Global,
    known: &IndexSet<Name>,
    value: &Value,
) -> Result<Vec<FileConstraint>, MofFault>
    ensures { MeetsWalk (λ constraints. constraints.items) result
        (constraints_of known.now.keys (view value.now)) }
{
    let items = array(alloc, value)?;
    let mut constraints = Vec::with_capacity(alloc, items.len())?;
    add_each(alloc, known, &mut constraints, items)?;
    Ok(constraints)
}

impl AddItem<IndexSet<Name>> for Vec<FileConstraint> {
    ghost use Rattle.std.specs.Prelude.{List};
    ghost use Rattle.mof_file.specs.declared.constraints.FileConstraint.{FileConstraint};
    ghost use Rattle.mof_file.specs.File.{add_constraint};

    ghost Seen = { List FileConstraint };

    ghost seen = { λ constraints. constraints.items };

    ghost with_item = { λ known. add_constraint known.keys };

    #[tactic(auto, unfolding(crate::specs::File::add_constraint))]
    fn add_item(
        &mut self,
        alloc: Global,
        known: &IndexSet<Name>,
        item: &Value,
    ) -> Result<(), MofFault> {
        let constraint = constraint(alloc, known, item)?;
        self.push(constraint)?;
        Ok(())
    }
}

#[tactic(auto, unfolding(crate::specs::File::constraint_of))]
fn constraint(
    alloc: Global,
    known: &IndexSet<Name>,
    value: &Value,
) -> Result<FileConstraint, MofFault>
    ensures { MeetsWalk (λ constraint. constraint) result
        (constraint_of known.now.keys (view value.now)) }
{
    require_object(alloc, value)?;
    function_in_set(alloc, known, value)
}

#[tactic(auto, unfolding(crate::specs::File::function_in_set_of))]
fn function_in_set(
    alloc: Global,
    known: &IndexSet<Name>,
    value: &Value,
) -> Result<FileConstraint, MofFault>
    ensures { MeetsWalk (λ constraint. constraint) result
        (function_in_set_of known.now.keys (view value.now)) }
{
    let func = function_field(alloc, known, "function", value)?;
    let set = set_field(alloc, &func, "set", value)?;
    named_constraint(alloc, func, set, value)
}

#[tactic(auto, using(mof_values::specs::WalkLaws::walk_at_steps))]
fn function_field(
    alloc: Global,
    known: &IndexSet<Name>,
    name: &str,
    value: &Value,
) -> Result<NamedFunc, MofFault>
    ensures { MeetsWalk (λ func. func) result
        (walk_at (function_of_any known.now.keys) name.now (view value.now)) }
{
    let found = field(alloc, name, value)?;
    at_key(alloc, name, function(alloc, known, found))
}

#[tactic(auto, using(mof_values::specs::WalkLaws::walk_at_steps))]
fn set_field(alloc: Global, func: &NamedFunc, name: &str, value: &Value) -> Result<Set, MofFault>
    ensures { MeetsWalk (λ set. set) result (walk_at (set_for func.now) name.now (view value.now)) }
{
    let found = field(alloc, name, value)?;
    at_key(alloc, name, set_for(alloc, func, found))
}

// A set that a function's values can be in.
#[tactic(auto, unfolding(crate::specs::File::set_for))]
fn set_for(alloc: Global, func: &NamedFunc, value: &Value) -> Result<Set, MofFault>
    ensures { MeetsWalk (λ set. set) result (set_for func.now (view value.now)) }
{
    let set = read_set(alloc, value)?;
    if is_unequal(func, &set) {
        Err(MofFault::Dimension { place: here(alloc) }.under_key(alloc, "dimension"))
    } else {
        Ok(set)
    }
}

// Whether a vector function has another number of components than its vector set's dimension.
fn is_unequal(func: &NamedFunc, set: &Set) -> bool
    ensures { result ≡ is_unequal func.now set.now }
{
    match func {
        NamedFunc::Plain(_) | NamedFunc::Affine(_) => false,
        NamedFunc::PlainVec(names) => has_other_dimension(set, names.len()),
        NamedFunc::AffineVec(functions) => has_other_dimension(set, functions.len()),
    }
}

fn has_other_dimension(set: &Set, components: usize) -> bool
    ensures { result ≡ (not (is_scalar set.now) && not (components == dimension_of set.now)) }
{
    !set.is_scalar() && components != set.dimension() as usize
}

#[tactic(auto, unfolding(crate::specs::File::named_constraint_of))]
fn named_constraint(
    alloc: Global,
    func: NamedFunc,
    set: Set,
    value: &Value,
) -> Result<FileConstraint, MofFault>
    ensures { MeetsWalk (λ constraint. constraint) result
        (named_constraint_of func set (view value.now)) }
{
    let name = optional_name(alloc, value)?;
    Ok(FileConstraint { name, func, set })
}

// The name of a constraint, which may be missing.
#[tactic(auto, using(mof_values::specs::WalkLaws::at_met))]
fn optional_name(alloc: Global, value: &Value) -> Result<Option<Name>, MofFault>
    ensures { MeetsWalk (λ name. name) result (optional None row_name_of "name" (view value.now)) }
{
    match value.get("name") {
        Some(found) => at_key(alloc, "name", row_name(alloc, found)),
        None => Ok(None),
    }
}

// The name, where a row can have it.
#[tactic(auto, unfolding(crate::specs::File::row_name_of))]
fn row_name(alloc: Global, value: &Value) -> Result<Option<Name>, MofFault>
    ensures { MeetsWalk (λ name. name) result (row_name_of (view value.now)) }
{
    let text = text(alloc, value)?;
    let name = given_name(alloc, text)?;
    Ok(name)
}
