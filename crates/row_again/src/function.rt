//! Functions by the names of their variables.
ghost use Rattle.std.specs.Prelude.{◌≡◌, All, IfOk, map};
ghost use Rattle.mof_laws.specs.ReadBack as named;
ghost use Rattle.mof_laws.specs.VariableLaws.{HasVariableAt};
ghost use Rattle.mof_round_trip_laws.specs.Functions.{HasTerms, HaveVariables, IsPlaced};
ghost use Rattle.mof_write.specs.Written.{naming};
ghost use Rattle.named_aff.specs.Distinct.{HasDistinctNames};

use aff_core::{Address, Aff};
use lists::{Duplicate, Memory, Sequence};
use model_store::UserModel;
use name_index::{Name, Names};
use named_aff::{NamedAff, NamedTerm, NamedTerms, NamedVec};
use ratio_core::Ratio;
use std::alloc::Global;
use user_model::{NamedFunc, UserFunc};

/// A function of variables that stand in the model, by their names.
pub fn named_function(
    alloc: Global,
    model: &UserModel,
    func: &UserFunc,
) -> Result<NamedFunc, Memory>
    requires { IsPlaced model.now.model func.now }
    ensures { IfOk result (λ func'. func' ≡ named.named_function (naming model.now.model) func.now) }
{
    Ok(match func {
        UserFunc::Plain(var) => NamedFunc::Plain(variable_name(model, var)?),
        UserFunc::Affine(func) => NamedFunc::Affine(named_affine(alloc, model, func)?),
        UserFunc::PlainVec(vars) => {
            NamedFunc::PlainVec(variable_names(alloc, model, vars.as_slice())?)
        }
        UserFunc::AffineVec(funcs) => {
            NamedFunc::AffineVec(named_affines(alloc, model, funcs.as_slice())?)
        }
    })
}

// The name of a variable that stands.
fn variable_name(model: &UserModel, at: &Address) -> Result<Name, Memory>
    requires { HasVariableAt model.now.model at.now }
    ensures { IfOk result (λ name. name ≡ naming model.now.model at.now) }
{
    match model.variable_name(at) {
        Some(name) => name.copy(),
        None => unreachable!(),
    }
}

fn variable_names(alloc: Global, model: &UserModel, vars: &[Address]) -> Result<Names, Memory>
    requires { All (HasVariableAt model.now.model) vars.now }
    ensures { IfOk result (λ names. names ≡ map (naming model.now.model) vars.now) }
{
    let mut names = Vec::new(alloc);
    for var in vars {
        names.push(variable_name(model, var)?)?;
    }
    Ok(Sequence::from_vec(names))
}

fn named_affines(alloc: Global, model: &UserModel, funcs: &[Aff]) -> Result<NamedVec, Memory>
    requires { All (HasTerms model.now.model) funcs.now }
    ensures { IfOk result (λ funcs'.
        funcs' ≡ map (named.named_affine (naming model.now.model)) funcs.now) }
{
    let mut named = Vec::new(alloc);
    for func in funcs {
        named.push(named_affine(alloc, model, func)?)?;
    }
    Ok(Sequence::from_vec(named))
}

fn named_affine(alloc: Global, model: &UserModel, func: &Aff) -> Result<NamedAff, Memory>
    requires { HasTerms model.now.model func.now }
    ensures { IfOk result (λ func'. func' ≡ named.named_affine (naming model.now.model) func.now) }
{
    // what this ensures: the model is valid, so no two variables have one name
    let _valid = model.rows();
    Ok(NamedAff {
        terms: named_terms(alloc, model, func.terms())?,
        constant: func.constant(),
    })
}

// Terms of variables of which no two have one name.
fn named_terms(
    alloc: Global,
    model: &UserModel,
    terms: &[(Address, Ratio)],
) -> Result<NamedTerms, Memory>
    requires stand { HaveVariables model.now.model terms.now }
    requires apart { HasDistinctNames (map (named.named_term (naming model.now.model)) terms.now) }
    ensures { IfOk result (λ terms'.
        terms' ≡ map (named.named_term (naming model.now.model)) terms.now) }
{
    let mut named = NamedTerms::with_capacity(alloc, terms.len())?;
    for (var, coefficient) in terms {
        let variable = variable_name(model, var)?;
        let term = NamedTerm {
            variable,
            coefficient: *coefficient,
        };
        if let Err((_, memory)) = named.push(term) {
            return Err(memory);
        }
    }
    Ok(named)
}
