//! Lists that contracts see as lists.
ghost use Rattle.std.specs.Prelude.{◌≡◌, IfOk, IsTrue, ◌↔◌, filter, not, Contains};
ghost use Rattle.std.specs.List.{list_any};
ghost use Rattle.aff_core.specs.Address.{address_eq};

use crate::{Address, Aff};
use lists::{Memory, Sequence};
use std::alloc::Global;

/// A list of addresses.
pub type Addresses = Sequence<Address>;

/// A list of affine functions.
pub type Affs = Sequence<Aff>;

/// A vector affine function: one function a component.
pub type VecAff = Sequence<Aff>;

/// Whether an address stands in a list.
pub fn has_address(addresses: &Addresses, at: &Address) -> bool
    ensures value { result ≡ list_any (address_eq at.now) addresses.now }
    ensures member { IsTrue result ↔ Contains addresses.now at.now }
{
    addresses.as_slice().contains(at)
}

/// The list without an address, however often it stands there.
pub fn without_address(addresses: &Addresses, at: &Address) -> Result<Addresses, Memory>
    ensures { IfOk result (λ s. s ≡ filter (λ a. not (address_eq at.now a)) addresses.now) }
{
    Ok(Sequence::from_vec(others(addresses.allocator(), addresses.as_slice(), at)?))
}

// The addresses but this one.
fn others(alloc: Global, addresses: &[Address], at: &Address) -> Result<Vec<Address>, Memory>
    ensures { IfOk result (λ v. v.items ≡ filter (λ a. not (address_eq at.now a)) addresses.now) }
{
    Ok(
        addresses
            .iter()
            .copied()
            .filter(|a| *at != *a)
            .collect(alloc)?,
    )
}
