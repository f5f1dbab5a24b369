//! Addresses among which others are looked for.
ghost use Rattle.std.specs.Prelude.{◌≡◌};
ghost use Rattle.leaf_update.specs.Others.{among};

use aff_core::Address;
use std::marker::Model;

/// Addresses in their order, in which one is found by halving.
#[derive(Debug, Drop)]
pub(crate) struct SortedAddresses {
    addresses: Vec<Address>,
}

impl Model for SortedAddresses {
    ghost use Rattle.std.specs.Prelude.{List};
    ghost use Rattle.std.specs.Coded.{coded_list};
    ghost use Rattle.std.specs.List.Sorted.{IsSorted};
    ghost use Rattle.aff_core.specs.Address.{Address, address_cmp, address_code};

    ghost Value = { List Address };

    ghost coded = { coded_list address_code };

    ghost view = { λ a. a.addresses.items };

    ghost invariant = { λ a. IsSorted address_cmp a.addresses.items };
}

impl SortedAddresses {
    pub(crate) fn of(mut addresses: Vec<Address>) -> SortedAddresses
        ensures { among result ≡ among addresses.items }
    {
        addresses.sort_unstable();
        SortedAddresses { addresses }
    }

    pub(crate) fn contains(&self, at: &Address) -> bool
        ensures { result ≡ among self.now at.now }
    {
        self.addresses.binary_search(at).is_ok()
    }
}
