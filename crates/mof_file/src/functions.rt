//! Functions by their types.
ghost use Rattle.serde_json.specs.View.{view};
ghost use Rattle.user_model.specs.declared.edit.NamedFunc.TheVariants as named;
ghost use Rattle.mof_file.specs.Functions.{affine_of, function_of_any, objective_function_of, scalar_function_of, typed_function_of, variable_of, variables_of, vector_affine_of};
ghost use Rattle.mof_values.specs.Values.{field, walk_at};
ghost use Rattle.mof_values.specs.Walked.{MeetsWalk, mapped};

use crate::items::{AddItem, add_each};
use crate::scalar::affine;
use crate::terms::{variable, variable_field};
use crate::vectors::vector_affine;
use indexmap::IndexSet;
use mof_values::{MofFault, array, at_key, field, is, kind, unknown_kind};
use name_index::{Name, Names};
use serde_json::Value;
use std::alloc::Global;
use user_model::NamedFunc;

/// A function of any type.
#[tactic(auto, unfolding(crate::specs::Functions::function_of_any))]
pub(crate) fn function(
    alloc: Global,
    known: &IndexSet<Name>,
    value: &Value,
) -> Result<NamedFunc, MofFault>
    ensures { MeetsWalk (λ func. func) result (function_of_any known.now.keys (view value.now)) }
{
    let kind = kind(alloc, value)?;
    typed_function(alloc, known, kind, value)
}

/// A function of numbers.
#[tactic(auto, unfolding(crate::specs::Functions::objective_function_of))]
pub(crate) fn objective_function(
    alloc: Global,
    known: &IndexSet<Name>,
    value: &Value,
) -> Result<NamedFunc, MofFault>
    ensures { MeetsWalk (λ func. func) result
        (objective_function_of known.now.keys (view value.now)) }
{
    let kind = kind(alloc, value)?;
    scalar_function(alloc, known, kind, value)
}

#[tactic(auto, unfolding(crate::specs::Functions::typed_function_of))]
fn typed_function(
    alloc: Global,
    known: &IndexSet<Name>,
    kind: &str,
    value: &Value,
) -> Result<NamedFunc, MofFault>
    ensures { MeetsWalk (λ func. func) result
        (typed_function_of known.now.keys kind.now (view value.now)) }
{
    if is(kind, "VectorOfVariables") {
        plain_vec(alloc, known, value)
    } else if is(kind, "VectorAffineFunction") {
        affine_vec(alloc, known, value)
    } else {
        scalar_function(alloc, known, kind, value)
    }
}

#[tactic(auto, unfolding(crate::specs::Functions::scalar_function_of))]
fn scalar_function(
    alloc: Global,
    known: &IndexSet<Name>,
    kind: &str,
    value: &Value,
) -> Result<NamedFunc, MofFault>
    ensures { MeetsWalk (λ func. func) result
        (scalar_function_of known.now.keys kind.now (view value.now)) }
{
    if is(kind, "Variable") {
        plain(alloc, known, value)
    } else if is(kind, "ScalarAffineFunction") {
        scalar_affine(alloc, known, value)
    } else {
        Err(unknown_kind(alloc))
    }
}

fn plain(alloc: Global, known: &IndexSet<Name>, value: &Value) -> Result<NamedFunc, MofFault>
    ensures { MeetsWalk (λ func. func) result
        (mapped named.Plain (field (variable_of known.now.keys) "name" (view value.now))) }
{
    let variable = variable_field(alloc, known, "name", value)?;
    Ok(NamedFunc::Plain(variable))
}

fn scalar_affine(
    alloc: Global,
    known: &IndexSet<Name>,
    value: &Value,
) -> Result<NamedFunc, MofFault>
    ensures { MeetsWalk (λ func. func) result
        (mapped named.Affine (affine_of known.now.keys (view value.now))) }
{
    let func = affine(alloc, known, value)?;
    Ok(NamedFunc::Affine(func))
}

fn plain_vec(alloc: Global, known: &IndexSet<Name>, value: &Value) -> Result<NamedFunc, MofFault>
    ensures { MeetsWalk (λ func. func) result
        (mapped named.PlainVec (field (variables_of known.now.keys) "variables" (view value.now))) }
{
    let variables = variables_field(alloc, known, "variables", value)?;
    Ok(NamedFunc::PlainVec(variables))
}

fn affine_vec(alloc: Global, known: &IndexSet<Name>, value: &Value) -> Result<NamedFunc, MofFault>
    ensures { MeetsWalk (λ func. func) result
        (mapped named.AffineVec (vector_affine_of known.now.keys (view value.now))) }
{
    let functions = vector_affine(alloc, known, value)?;
    Ok(NamedFunc::AffineVec(functions))
}

#[tactic(auto, using(mof_values::specs::WalkLaws::walk_at_steps))]
fn variables_field(
    alloc: Global,
    known: &IndexSet<Name>,
    name: &str,
    value: &Value,
) -> Result<Names, MofFault>
    ensures { MeetsWalk (λ names. names) result
        (walk_at (variables_of known.now.keys) name.now (view value.now)) }
{
    let found = field(alloc, name, value)?;
    at_key(alloc, name, variable_list(alloc, known, found))
}

#[tactic(auto, unfolding(crate::specs::Functions::variables_of))]
fn variable_list(alloc: Global, known: &IndexSet<Name>, value: &Value) -> Result<Names, MofFault>
    ensures { MeetsWalk (λ names. names) result (variables_of known.now.keys (view value.now)) }
{
    let items = array(alloc, value)?;
    let mut names = Names::new(alloc);
    add_each(alloc, known, &mut names, items)?;
    Ok(names)
}

impl AddItem<IndexSet<Name>> for Names {
    ghost use Rattle.std.specs.Prelude.{ℕ, List};
    ghost use Rattle.mof_file.specs.Functions.{add_variable};

    ghost Seen = { List (List ℕ) };

    ghost seen = { λ names. names };

    ghost with_item = { λ known. add_variable known.keys };

    #[tactic(auto, unfolding(crate::specs::Functions::add_variable))]
    fn add_item(
        &mut self,
        alloc: Global,
        known: &IndexSet<Name>,
        item: &Value,
    ) -> Result<(), MofFault> {
        let name = variable(alloc, known, item)?;
        match self.push(name) {
            Ok(()) => Ok(()),
            Err(_) => Err(MofFault::Memory),
        }
    }
}
