//! The variables of a model.
ghost use Rattle.std.specs.Prelude.{◌≡◌, ◌<◌, ◌++◌, IfOk, IfSome, OnOk, length};
ghost use Rattle.numbered_list.specs.Numbered.{Rise};
ghost use Rattle.user_model.specs.Consistent.{variable_number};
ghost use Rattle.certificates.specs.Points.{addresses_of, all_addresses, variables_of};
ghost use Rattle.cert_core.specs.Variables.{Ascend, IsVariablePlace};

use aff_core::{Address, Root};
use ratio_core::Memory;
use std::alloc::Global;
use std::marker::Model;
use user_model::{GroupVar, Groups};

/// The addresses of a model's variables, in their order.
#[derive(Drop)]
pub struct Variables {
    addresses: Vec<Address>,
}

impl Model for Variables {
    ghost use Rattle.std.specs.Prelude.{List};
    ghost use Rattle.std.specs.Coded.{coded_list};
    ghost use Rattle.aff_core.specs.Address.{Address, address_code};
    ghost use Rattle.cert_core.specs.Variables.{Ascend};

    ghost Value = { List Address };

    ghost coded = { coded_list address_code };

    ghost view = { λ a. a.addresses.items };

    ghost invariant = { λ a. Ascend a.addresses.items };
}

impl Variables {
    /// The variables of groups.
    pub fn of(alloc: Global, groups: &Groups) -> Result<Variables, Memory>
        requires { Rise variable_number (variables_of groups.now.items) }
        ensures { IfOk result (λ us. us ≡ all_addresses groups.now.items) }
    {
        Ok(Variables {
            addresses: addresses(alloc, groups)?,
        })
    }

    /// Addresses in their order, which need not be those of a model.
    pub fn ascending(addresses: Vec<Address>) -> Variables
        requires { Ascend addresses.items }
        ensures { result ≡ addresses.items }
    {
        Variables { addresses }
    }

    pub fn addresses(&self) -> &[Address]
        ensures value { result.now ≡ self.now }
        ensures ascending { Ascend self.now }
    {
        &self.addresses
    }

    /// The place of an address among them.
    pub fn place(&self, at: &Address) -> Option<usize>
        ensures at { IsVariablePlace self.now at.now result }
        ensures ascending { Ascend self.now }
        ensures below { IfSome result (λ place. place < length self.now) }
    {
        self.addresses.binary_search(at).ok()
    }
}

fn addresses(alloc: Global, groups: &Groups) -> Result<Vec<Address>, Memory>
    ensures { IfOk result (λ v. v.items ≡ all_addresses groups.now.items) }
{
    let mut addresses = Vec::new(alloc);
    for group in groups.iter() {
        push_addresses(&mut addresses, group.vars.as_slice())?;
    }
    Ok(addresses)
}

fn push_addresses(addresses: &mut Vec<Address>, vars: &[GroupVar]) -> Result<(), Memory>
    ensures { OnOk result (addresses.new.items ≡ addresses.old.items ++ addresses_of vars.now) }
{
    for var in vars {
        addresses.push(Address::root(Root::Variable, var.number))?;
    }
    Ok(())
}
