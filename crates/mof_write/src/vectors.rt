//! Affine functions of vectors as JSON values.
ghost use Rattle.std.specs.Prelude.{◌≡◌, ◌+◌, ◌∷◌, ◌++◌, [], All, OnOk, IfOk, map};
ghost use Rattle.serde_json.specs.Data.{array};
ghost use Rattle.serde_json.specs.View.{items_of, view};
ghost use Rattle.mof_write.specs.Sayable.{ConstantFits, EachTermFits, FunctionFits, TermFits};
ghost use Rattle.mof_write.specs.Values.{count_data, number_data, object_of, word};
ghost use Rattle.mof_write.specs.Written.{naming, vector_affine_data, vector_term_data, vector_terms};

use crate::functions::term;
use crate::numbers::number;
use aff_core::{Address, Aff};
use lists::Memory;
use model_store::UserModel;
use ratio_core::Ratio;
use serde_json::{Value, json};
use std::alloc::{AllocError, Global};

/// An affine function of vectors.
#[tactic(auto, unfolding(crate::specs::Written::vector_affine_data))]
pub(crate) fn vector_affine(
    alloc: Global,
    model: &UserModel,
    funcs: &[Aff],
) -> Result<Value, Memory>
    ensures value { IfOk result (λ value. view value
        ≡ vector_affine_data (naming model.now.model) funcs.now) }
    ensures fits { OnOk result (All FunctionFits funcs.now) }
{
    let constants = constants(alloc, funcs)?;
    let terms = vector_terms(alloc, model, funcs)?;
    let function = vector_affine_of(alloc, constants, terms)?;
    Ok(function)
}

fn vector_affine_of(
    alloc: Global,
    constants: Vec<Value>,
    terms: Vec<Value>,
) -> Result<Value, AllocError>
    ensures { IfOk result (λ value. view value ≡ object_of (
        ("constants", array (items_of (map view constants.items)))
        ∷ ("terms", array (items_of (map view terms.items)))
        ∷ ("type", word "VectorAffineFunction") ∷ [])) }
{
    json!(in alloc; {"constants": constants, "terms": terms, "type": "VectorAffineFunction"})
}

fn constants(alloc: Global, funcs: &[Aff]) -> Result<Vec<Value>, Memory>
    ensures value { IfOk result (λ values. map view values.items
        ≡ map (λ f. number_data f.constant) funcs.now) }
    ensures fits { OnOk result (All ConstantFits funcs.now) }
{
    let mut values = Vec::new(alloc);
    for func in funcs {
        values.push(number(alloc, func.constant())?)?;
    }
    Ok(values)
}

// The terms of all components, each with its component's number from 1.
fn vector_terms(alloc: Global, model: &UserModel, funcs: &[Aff]) -> Result<Vec<Value>, Memory>
    ensures value { IfOk result (λ values. map view values.items
        ≡ vector_terms (naming model.now.model) 0 funcs.now) }
    ensures fits { OnOk result (All EachTermFits funcs.now) }
{
    let mut values = Vec::new(alloc);
    for (place, func) in funcs.iter().enumerate() {
        put_terms(alloc, model, &mut values, place + 1, func.terms())?;
    }
    Ok(values)
}

fn put_terms(
    alloc: Global,
    model: &UserModel,
    values: &mut Vec<Value>,
    output: usize,
    terms: &[(Address, Ratio)],
) -> Result<(), Memory>
    ensures value { OnOk result (map view values.new.items ≡ map view values.old.items
        ++ map (vector_term_data (naming model.now.model) output) terms.now) }
    ensures fits { OnOk result (All TermFits terms.now) }
{
    for (var, coefficient) in terms {
        let term = term(alloc, model, var, *coefficient)?;
        values.push(vector_term(alloc, output, term)?)?;
    }
    Ok(())
}

fn vector_term(alloc: Global, output: usize, term: Value) -> Result<Value, AllocError>
    ensures { IfOk result (λ value. view value ≡ object_of
        (("output_index", count_data output) ∷ ("scalar_term", view term) ∷ [])) }
{
    json!(in alloc; {"output_index": output, "scalar_term": term})
}
