//! The leaves of an item, one after the other.
ghost use Rattle.std.specs.Prelude.{◌≡◌, ◌++◌, OnOk, map};
ghost use Rattle.address_map.specs.Places.{addresses};
ghost use Rattle.item_leaves.specs.ItemLeaves.{those_of};

use address_map::{AddressMap, RankedItems};
use aff_core::Address;
use lists::{Memory, Sequence};

/// Lists the leaf rows at and below the address of a user's item, in the order of their addresses.
pub fn list_rows(
    map: &AddressMap,
    item: &Address,
    list: &mut Sequence<Address>,
) -> Result<(), Memory>
    ensures { OnOk result (list.new
        ≡ list.old ++ those_of item.now (addresses map.now.rows.indices)) }
{
    list_all(map.rows_of(item), list)
}

/// Lists the leaf variables at and below the address of a user's item, in the order of their
/// addresses. Those that a native group has of its own are elsewhere.
pub fn list_variables(
    map: &AddressMap,
    item: &Address,
    list: &mut Sequence<Address>,
) -> Result<(), Memory>
    ensures { OnOk result (list.new
        ≡ list.old ++ those_of item.now (addresses map.now.vars.indices)) }
{
    list_all(map.vars_of(item), list)
}

// Lists the addresses of these leaves.
fn list_all(
    leaves: RankedItems<'_, (Address, usize)>,
    list: &mut Sequence<Address>,
) -> Result<(), Memory>
    ensures { OnOk result (list.new ≡ list.old ++ map (λ e. e.0) leaves.entry) }
{
    for leaf in leaves {
        if let Err(refused) = list.push(leaf.0) {
            return Err(refused.1);
        }
    }
    Ok(())
}
