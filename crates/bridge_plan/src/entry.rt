//! Components of groups with their expressions.

use aff_core::Address;
use item_core::Expression;
use std::marker::Model;

/// A component of a group, with the expression that stands for it.
#[derive(Debug, Drop)]
pub struct Entry {
    pub component: Address,
    pub expression: Expression,
}

impl Model for Entry {
    ghost use Rattle.fresh_bridging.specs.Entries as bridging;
    ghost use Rattle.bridge_plan.specs.EntryCode.{entry_code};

    ghost Value = { bridging.Entry };

    ghost coded = { entry_code };

    ghost view = { λ a. record { component = a.component; expression = a.expression } };
}
