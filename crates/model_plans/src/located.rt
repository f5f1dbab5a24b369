//! Functions over the addresses of variables, from functions by the names of variables that stand
//! in the model.
ghost use Rattle.std.specs.Prelude.{◌≡◌, IfOk, map};
ghost use Rattle.user_model.specs.Model.{address_named};
ghost use Rattle.user_model.specs.Consistent.{IsConsistent};
ghost use Rattle.user_model.specs.Edited.{affine, located};
ghost use Rattle.user_model.specs.Refusals.{IsKnown};
ghost use Rattle.user_model.specs.declared.edit.NamedFunc.TheVariants.{Affine, AffineVec};

use aff_core::{Address, Addresses, Aff, Root, VecAff};
use lists::Duplicate;
use model_catalog::Catalog;
use name_index::{Name, Names};
use named_aff::{NamedAff, NamedTerm, NamedVec};
use ratio_core::{Memory, Ratio};
use std::alloc::Global;
use user_model::{NamedFunc, UserFunc};

/// The address of the variable with a name, which is to stand in the model.
pub(crate) fn address_named(model: &Catalog, name: &Name) -> Address
    ensures { result ≡ address_named model.now.model name.now }
{
    Address::root(Root::Variable, model.variable(name).unwrap_or(0))
}

/// The function over the addresses of its variables, which are to stand in the model.
pub(crate) fn located(alloc: Global, model: &Catalog, func: &NamedFunc) -> Result<UserFunc, Memory>
    requires consistent { IsConsistent model.now.model }
    requires known { IsKnown model.now.model func.now }
    ensures { IfOk result (λ f. f ≡ located model.now.model func.now) }
{
    Ok(match func {
        NamedFunc::Plain(var) => UserFunc::Plain(address_named(model, var)),
        NamedFunc::Affine(f) => UserFunc::Affine(affine(alloc, model, f)?),
        NamedFunc::PlainVec(vars) => UserFunc::PlainVec(addresses(alloc, model, vars)?),
        NamedFunc::AffineVec(funcs) => UserFunc::AffineVec(affines(alloc, model, funcs)?),
    })
}

/// The same of an affine function: terms that are zero are dropped.
pub(crate) fn affine(alloc: Global, model: &Catalog, func: &NamedAff) -> Result<Aff, Memory>
    requires consistent { IsConsistent model.now.model }
    requires known { IsKnown model.now.model (Affine func.now) }
    ensures { IfOk result (λ f. f ≡ affine model.now.model func.now) }
{
    let terms = located_terms(alloc, model, func.terms.as_slice())?;
    // what is gathered has room for more terms, and its copy, which stays, for its own
    Aff::gather(alloc, &terms, func.constant)?.copy()
}

fn located_terms(
    alloc: Global,
    model: &Catalog,
    terms: &[NamedTerm],
) -> Result<Vec<(Address, Ratio)>, Memory>
    ensures { IfOk result (λ located. located.items
        ≡ map (λ t. (address_named model.now.model t.variable, t.coefficient)) terms.now) }
{
    let mut located = Vec::with_capacity(alloc, terms.len())?;
    for term in terms {
        located.push((address_named(model, &term.variable), term.coefficient))?;
    }
    Ok(located)
}

fn addresses(alloc: Global, model: &Catalog, vars: &Names) -> Result<Addresses, Memory>
    ensures { IfOk result (λ located. located ≡ map (address_named model.now.model) vars.now) }
{
    let mut located = Vec::with_capacity(alloc, vars.len())?;
    for var in vars.as_slice() {
        located.push(address_named(model, var))?;
    }
    Ok(Addresses::from_vec(located))
}

fn affines(alloc: Global, model: &Catalog, funcs: &NamedVec) -> Result<VecAff, Memory>
    requires consistent { IsConsistent model.now.model }
    requires known { IsKnown model.now.model (AffineVec funcs.now) }
    ensures { IfOk result (λ located. located ≡ map (affine model.now.model) funcs.now) }
{
    let mut located = Vec::with_capacity(alloc, funcs.len())?;
    for func in funcs.as_slice() {
        located.push(affine(alloc, model, func)?)?;
    }
    Ok(VecAff::from_vec(located))
}
