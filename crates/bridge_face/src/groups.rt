//! Child groups.
ghost use Rattle.std.specs.Prelude.{◌≡◌, ◌<◌, IfOk, length};
ghost use Rattle.item_core.specs.declared.item.Body.TheVariants.{Group};
ghost use Rattle.bridge_face.specs.ImageOf.{inner};
ghost use Rattle.bridge_face.specs.Images.{child_at, components};

use aff_core::{Address, Addresses};
use item_core::{Body, Item};
use lists::Memory;
use set_core::Set;
use std::alloc::Global;

/// The variables of a group of `count` components: its address with each component appended.
pub fn components(alloc: Global, at: &Address, count: u16) -> Result<Addresses, Memory>
    requires { length at.now.positions < 40 }
    ensures { IfOk result (λ vars. vars ≡ components at.now count) }
{
    let mut vars = Vec::with_capacity(alloc, count as usize)?;
    for component in 0..count {
        vars.push(at.child(component))?;
    }
    Ok(Addresses::from_vec(vars))
}

/// The variables of an item's child group, at position 0, of `count` components.
pub fn inner_variables(alloc: Global, item: &Item, count: u16) -> Result<Addresses, Memory>
    requires { length item.now.at.positions < 39 }
    ensures { IfOk result (λ vars. vars ≡ inner item.now count) }
{
    components(alloc, &item.at.child(0), count)
}

/// The child group, at position 0, of these variables.
pub fn child_group(item: &Item, set: Set, vars: Addresses) -> Item
    requires { length item.now.at.positions < 40 }
    ensures { result ≡ child_at item.now 0 (Group set vars) }
{
    Item {
        at: item.at.child(0),
        body: Body::Group { set, vars },
    }
}
