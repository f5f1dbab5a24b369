//! Lists rebuilt for a plan.
ghost use Rattle.std.specs.Prelude.{◌≡◌, ◌+◌, ◌<◌, ◌∷◌, [], ◌++◌, IfOk, length, take, drop};
ghost use Rattle.std.specs.Option.{option_to_list};

use aff_core::{Aff, VecAff};
use lists::Duplicate;
use ratio_core::Memory;
use std::alloc::Global;

/// A list of one item.
pub(crate) fn only<X: Drop>(alloc: Global, item: X) -> Result<Vec<X>, Memory>
    ensures { IfOk result (λ items. items.items ≡ item ∷ []) }
{
    let mut items = Vec::with_capacity(alloc, 1)?;
    items.push(item)?;
    Ok(items)
}

/// A list of what there is.
pub(crate) fn only_some<X: Drop>(alloc: Global, item: Option<X>) -> Result<Vec<X>, Memory>
    ensures { IfOk result (λ items. items.items ≡ option_to_list item) }
{
    match item {
        Some(item) => only(alloc, item),
        None => Ok(Vec::new(alloc)),
    }
}

/// The components with another one at a place.
pub(crate) fn with_component(
    alloc: Global,
    funcs: &[Aff],
    place: usize,
    func: Aff,
) -> Result<VecAff, Memory>
    requires { place < length funcs.now }
    ensures { IfOk result (λ copies. copies
        ≡ take place funcs.now ++ (func ∷ drop (place + 1) funcs.now)) }
{
    let mut copies = Vec::with_capacity(alloc, funcs.len())?;
    copy_onto(&mut copies, &funcs[..place])?;
    copies.push(func)?;
    copy_onto(&mut copies, &funcs[place + 1..])?;
    Ok(VecAff::from_vec(copies))
}

fn copy_onto(copies: &mut Vec<Aff>, funcs: &[Aff]) -> Result<(), Memory>
    ensures { IfOk result (λ _. copies.new.items ≡ copies.old.items ++ funcs.now) }
{
    for func in funcs {
        copies.push(func.copy()?)?;
    }
    Ok(())
}
