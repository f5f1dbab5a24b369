//! Functions as JSON values.
ghost use Rattle.std.specs.Prelude.{◌≡◌, ◌∷◌, [], All, IfOk, OnOk, map};
ghost use Rattle.serde_json.specs.Data.{array};
ghost use Rattle.serde_json.specs.View.{items_of, view};
ghost use Rattle.ratio_core.specs.Rational.{Fits};
ghost use Rattle.mof_write.specs.Sayable.{FunctionFits, TermFits, UserFuncFits};
ghost use Rattle.mof_write.specs.Values.{object_of, word};
ghost use Rattle.mof_write.specs.Written.{address_data, affine_data, function_data, naming, term_data, variable_data, variables_data};

use crate::numbers::{number, variable_name};
use crate::vectors::vector_affine;
use aff_core::{Address, Aff};
use lists::Memory;
use model_store::UserModel;
use ratio_core::Ratio;
use serde_json::{Value, json};
use std::alloc::{AllocError, Global};
use user_model::UserFunc;

/// A function of the model's variables.
#[tactic(auto, unfolding(crate::specs::Written::function_data))]
pub(crate) fn function(alloc: Global, model: &UserModel, func: &UserFunc) -> Result<Value, Memory>
    ensures value { IfOk result (λ value. view value
        ≡ function_data (naming model.now.model) func.now) }
    ensures fits { OnOk result (UserFuncFits func.now) }
{
    match func {
        UserFunc::Plain(var) => variable(alloc, model, var),
        UserFunc::Affine(func) => affine(alloc, model, func),
        UserFunc::PlainVec(vars) => addresses(alloc, model, vars.as_slice()),
        UserFunc::AffineVec(funcs) => vector_affine(alloc, model, funcs.as_slice()),
    }
}

/// A variable as a function.
pub(crate) fn variable(alloc: Global, model: &UserModel, at: &Address) -> Result<Value, Memory>
    ensures { IfOk result (λ value. view value
        ≡ variable_data (naming model.now.model at.now)) }
{
    let name = variable_name(alloc, model, at)?;
    let function = named_variable(alloc, name)?;
    Ok(function)
}

/// The variable with a name, as a function.
pub(crate) fn named_variable(alloc: Global, name: Value) -> Result<Value, AllocError>
    ensures { IfOk result (λ value. view value
        ≡ object_of (("name", view name) ∷ ("type", word "Variable") ∷ [])) }
{
    json!(in alloc; {"name": name, "type": "Variable"})
}

/// The variables with these names, as a function.
pub(crate) fn named_variables(alloc: Global, names: Value) -> Result<Value, AllocError>
    ensures { IfOk result (λ value. view value
        ≡ object_of (("type", word "VectorOfVariables") ∷ ("variables", view names) ∷ [])) }
{
    json!(in alloc; {"type": "VectorOfVariables", "variables": names})
}

fn addresses(alloc: Global, model: &UserModel, vars: &[Address]) -> Result<Value, Memory>
    ensures { IfOk result (λ value. view value
        ≡ variables_data (map (address_data (naming model.now.model)) vars.now)) }
{
    let names = address_names(alloc, model, vars)?;
    let function = named_variables(alloc, Value::Array(names))?;
    Ok(function)
}

fn address_names(alloc: Global, model: &UserModel, vars: &[Address]) -> Result<Vec<Value>, Memory>
    ensures { IfOk result (λ names. map view names.items
        ≡ map (address_data (naming model.now.model)) vars.now) }
{
    let mut names = Vec::new(alloc);
    for var in vars {
        names.push(variable_name(alloc, model, var)?)?;
    }
    Ok(names)
}

/// An affine function of numbers.
#[tactic(auto, unfolding(crate::specs::Written::affine_data))]
pub(crate) fn affine(alloc: Global, model: &UserModel, func: &Aff) -> Result<Value, Memory>
    ensures value { IfOk result (λ value. view value
        ≡ affine_data (naming model.now.model) func.now) }
    ensures fits { OnOk result (FunctionFits func.now) }
{
    let terms = terms(alloc, model, func.terms())?;
    let constant = number(alloc, func.constant())?;
    let function = affine_of(alloc, terms, constant)?;
    Ok(function)
}

fn affine_of(alloc: Global, terms: Vec<Value>, constant: Value) -> Result<Value, AllocError>
    ensures { IfOk result (λ value. view value ≡ object_of (
        ("constant", view constant) ∷ ("terms", array (items_of (map view terms.items)))
        ∷ ("type", word "ScalarAffineFunction") ∷ [])) }
{
    json!(in alloc; {"constant": constant, "terms": terms, "type": "ScalarAffineFunction"})
}

fn terms(alloc: Global, model: &UserModel, terms: &[(Address, Ratio)]) -> Result<Vec<Value>, Memory>
    ensures value { IfOk result (λ values. map view values.items
        ≡ map (term_data (naming model.now.model)) terms.now) }
    ensures fits { OnOk result (All TermFits terms.now) }
{
    let mut values = Vec::new(alloc);
    for (var, coefficient) in terms {
        values.push(term(alloc, model, var, *coefficient)?)?;
    }
    Ok(values)
}

/// A coefficient and its variable.
pub(crate) fn term(
    alloc: Global,
    model: &UserModel,
    var: &Address,
    coefficient: Ratio,
) -> Result<Value, Memory>
    ensures value { IfOk result (λ value. view value
        ≡ term_data (naming model.now.model) (var.now, coefficient)) }
    ensures fits { OnOk result (Fits coefficient) }
{
    let coefficient = number(alloc, coefficient)?;
    let variable = variable_name(alloc, model, var)?;
    let term = term_of(alloc, coefficient, variable)?;
    Ok(term)
}

fn term_of(alloc: Global, coefficient: Value, variable: Value) -> Result<Value, AllocError>
    ensures { IfOk result (λ value. view value ≡ object_of
        (("coefficient", view coefficient) ∷ ("variable", view variable) ∷ [])) }
{
    json!(in alloc; {"coefficient": coefficient, "variable": variable})
}
