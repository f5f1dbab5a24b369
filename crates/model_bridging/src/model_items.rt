//! The items of the user's model.
ghost use Rattle.std.specs.Prelude.{◌≡◌, IfOk, map};
ghost use Rattle.user_model.specs.Model.{variable_address};
ghost use Rattle.fresh_bridging.specs.ModelImage.{group_item};

use aff_core::{Address, Addresses, Root};
use item_core::{Body, Item};
use lists::Memory;
use std::alloc::Global;
use user_model::{Group, GroupVar};

// A group as an item.
pub(crate) fn item_of_group(alloc: Global, group: &Group) -> Result<Item, Memory>
    ensures { IfOk result (λ item. item ≡ group_item group.now) }
{
    let set = group.set.copy(alloc)?;
    let vars = variables(alloc, group.vars.as_slice())?;
    Ok(Item {
        at: Address::root(Root::Group, group.id),
        body: Body::Group { set, vars },
    })
}

// The addresses of variables.
fn variables(alloc: Global, vars: &[GroupVar]) -> Result<Addresses, Memory>
    ensures { IfOk result (λ addresses. addresses
        ≡ map (λ v. variable_address v.number) vars.now) }
{
    let mut addresses = Vec::with_capacity(alloc, vars.len())?;
    for var in vars {
        addresses.push(Address::root(Root::Variable, var.number))?;
    }
    Ok(Addresses::from_vec(addresses))
}
