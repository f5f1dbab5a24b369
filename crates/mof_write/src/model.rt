//! The text of a model.
ghost use Rattle.std.specs.Prelude.{◌≡◌, ◌∷◌, ◌++◌, [], All, IfOk, OnOk, flat_map, map};
ghost use Rattle.serde_json.specs.Data.{array, string};
ghost use Rattle.serde_json.specs.View.{items_of, view};
ghost use Rattle.user_model.specs.Valid.{IsValid};
ghost use Rattle.mof_write.specs.Sayable.{HasName, IsSayable, ObjectiveFits, VarsHaveNames};
ghost use Rattle.mof_write.specs.Values.{object_of, word};
ghost use Rattle.mof_write.specs.Written.{IsTextOf, model_data, naming, objective_data, sense_data, variable_entry, version_data, written};

use crate::constraints::constraint_values;
use crate::functions::{affine, variable};
use crate::numbers::name;
use lists::Memory;
use model_store::UserModel;
use name_index::Text;
use serde_json::{Value, json};
use std::alloc::{AllocError, Global};
use user_model::{GroupVar, Groups, Objective, Sense};

/// The compact text of a model as a MathOptFormat file, version 1.0, which names each variable in
/// the order of the groups.
pub fn write(alloc: Global, model: &UserModel) -> Result<Text, Memory>
    ensures text { IfOk result (λ text. text ≡ written model.now.model) }

    // A reader of JSON finds the model's value in it, with names and numbers that a file can say.
    ensures reads_back { IfOk result (λ text. IsTextOf text (model_data model.now.model)) }
    ensures sayable { OnOk result (IsSayable model.now.model) }
{
    let value = model_value(alloc, model)?;
    let text = value.to_vec(alloc)?;
    Ok(Text::from_vec(text))
}

#[tactic(auto, unfolding(crate::specs::Written::model_data))]
fn model_value(alloc: Global, model: &UserModel) -> Result<Value, Memory>
    ensures value { IfOk result (λ value. view value ≡ model_data model.now.model) }
    ensures valid { OnOk result (IsValid model.now.model) }
    ensures sayable { OnOk result (IsSayable model.now.model) }
{
    let constraints = constraint_values(alloc, model)?;
    let objective = objective(alloc, model)?;
    let variables = variables(alloc, model.groups())?;
    let value = file(alloc, constraints, objective, variables)?;
    Ok(value)
}

fn file(
    alloc: Global,
    constraints: Vec<Value>,
    objective: Value,
    variables: Vec<Value>,
) -> Result<Value, AllocError>
    ensures { IfOk result (λ value. view value ≡ object_of (
        ("constraints", array (items_of (map view constraints.items)))
        ∷ ("objective", view objective)
        ∷ ("variables", array (items_of (map view variables.items)))
        ∷ ("version", version_data) ∷ [])) }
{
    json!(in alloc; {
        "constraints": constraints,
        "objective": objective,
        "variables": variables,
        "version": {"major": 1u32, "minor": 0u32}
    })
}

#[tactic(auto, unfolding(crate::specs::Written::objective_data))]
fn objective(alloc: Global, model: &UserModel) -> Result<Value, Memory>
    ensures value { IfOk result (λ value. view value
        ≡ objective_data (naming model.now.model) model.now.model.objective) }
    ensures fits { OnOk result (ObjectiveFits model.now.model.objective) }
{
    match model.objective() {
        Objective::Feasibility => Ok(feasibility(alloc)?),
        Objective::Plain { sense, var } => {
            let function = variable(alloc, model, var)?;
            Ok(sought(alloc, function, *sense)?)
        }
        Objective::Affine { sense, func } => {
            let function = affine(alloc, model, func)?;
            Ok(sought(alloc, function, *sense)?)
        }
    }
}

fn feasibility(alloc: Global) -> Result<Value, AllocError>
    ensures { IfOk result (λ value. view value
        ≡ object_of (("sense", word "feasibility") ∷ [])) }
{
    json!(in alloc; {"sense": "feasibility"})
}

fn sought(alloc: Global, function: Value, sense: Sense) -> Result<Value, AllocError>
    ensures { IfOk result (λ value. view value
        ≡ object_of (("function", view function) ∷ ("sense", sense_data sense) ∷ [])) }
{
    let sense = sense_word(sense);
    json!(in alloc; {"function": function, "sense": sense})
}

fn sense_word(sense: Sense) -> &'static str
    ensures { string result.now ≡ sense_data sense }
{
    match sense {
        Sense::Min => "min",
        Sense::Max => "max",
    }
}

// The variables of all groups.
fn variables(alloc: Global, groups: &Groups) -> Result<Vec<Value>, Memory>
    ensures value { IfOk result (λ values. map view values.items
        ≡ map variable_entry (flat_map (λ g. g.vars) groups.now.items)) }
    ensures names { OnOk result (All VarsHaveNames groups.now.items) }
{
    let mut values = Vec::new(alloc);
    for group in groups.iter() {
        put_variables(alloc, &mut values, group.vars.as_slice())?;
    }
    Ok(values)
}

fn put_variables(alloc: Global, values: &mut Vec<Value>, vars: &[GroupVar]) -> Result<(), Memory>
    ensures value { OnOk result (map view values.new.items
        ≡ map view values.old.items ++ map variable_entry vars.now) }
    ensures names { OnOk result (All HasName vars.now) }
{
    for var in vars {
        let name = name(alloc, &var.name)?;
        values.push(variable_value(alloc, name)?)?;
    }
    Ok(())
}

fn variable_value(alloc: Global, name: Value) -> Result<Value, AllocError>
    ensures { IfOk result (λ value. view value ≡ object_of (("name", view name) ∷ [])) }
{
    json!(in alloc; {"name": name})
}
