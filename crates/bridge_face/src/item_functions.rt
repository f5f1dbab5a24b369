//! The functions of items.
ghost use Rattle.std.specs.Prelude.{◌≡◌, ◌≤◌, [], ◌∷◌, IfOk, length, map};
ghost use Rattle.aff_core.specs.Function.{variable};
ghost use Rattle.item_core.specs.Item.{functions_of, set_of};

use aff_core::{Address, Aff, VecAff};
use item_core::Body;
use lists::Memory;
use set_core::Set;
use std::alloc::Global;

/// Variables as functions.
pub fn variables(alloc: Global, vars: &[Address]) -> Result<VecAff, Memory>
    ensures { IfOk result (λ funcs. funcs ≡ map variable vars.now) }
{
    let mut funcs = Vec::with_capacity(alloc, vars.len())?;
    for var in vars {
        funcs.push(Aff::variable(alloc, var)?)?;
    }
    Ok(VecAff::from_vec(funcs))
}

/// One function as a vector of one component.
pub fn alone(alloc: Global, func: Aff) -> Result<VecAff, Memory>
    ensures { IfOk result (λ funcs. funcs ≡ func ∷ []) }
{
    let mut funcs = Vec::with_capacity(alloc, 1)?;
    funcs.push(func)?;
    Ok(VecAff::from_vec(funcs))
}

/// The number of an item's components.
pub fn component_count(body: &Body) -> u16
    requires { length (functions_of body.now) ≤ 32767 }
    ensures { result ≡ length (functions_of body.now) }
{
    match body {
        Body::Group { vars, .. } | Body::Free { vars } | Body::PlainVec { vars, .. } => {
            vars.len() as u16
        }
        Body::AffineVec { func, .. } => func.len() as u16,
        _ => 1,
    }
}

/// The set of an item.
pub fn item_set(alloc: Global, body: &Body) -> Result<Set, Memory>
    requires { length (functions_of body.now) ≤ 32767 }
    ensures { IfOk result (λ set. set ≡ set_of body.now) }
{
    match body {
        Body::Group { set, .. }
        | Body::Plain { set, .. }
        | Body::Affine { set, .. }
        | Body::PlainVec { set, .. }
        | Body::AffineVec { set, .. } => set.copy(alloc),
        Body::Free { vars } => Ok(Set::Reals {
            dimension: vars.len() as u32,
        }),
        Body::PlainObj { .. } | Body::AffineObj { .. } => Ok(Set::Reals { dimension: 1 }),
    }
}
