//! The expressions of variables.
ghost use Rattle.std.specs.Prelude.{◌≡◌, IfOk, unwrap_or};
ghost use Rattle.std.specs.Option.{option_copied};
ghost use Rattle.item_core.specs.declared.image.Expression.TheVariants.{Kept};
ghost use Rattle.fresh_bridging.specs.Entries.{expression_in};

use crate::Entry;
use aff_core::Address;
use item_core::Expression;
use lists::Memory;
use std::marker::Model;

/// Components with their expressions, in the order of the components. Contracts see the entries.
#[derive(Debug, Drop)]
pub(crate) struct Expressions {
    entries: Vec<Entry>,
}

impl Model for Expressions {
    ghost use Rattle.std.specs.Prelude.{List};
    ghost use Rattle.std.specs.Coded.{coded_list};
    ghost use Rattle.fresh_bridging.specs.Entries as bridging;
    ghost use Rattle.bridge_plan.specs.EntryCode.{entry_code};
    ghost use Rattle.bridge_plan.specs.Stands.{AreByComponent};

    ghost Value = { List bridging.Entry };

    ghost coded = { coded_list entry_code };

    ghost view = { λ a. a.entries.items };

    ghost invariant = { λ a. AreByComponent a.entries.items };
}

impl Expressions {
    /// The expressions of these entries; if a component has several, the first wins.
    pub(crate) fn of(mut entries: Vec<Entry>) -> Result<Expressions, Memory>
        ensures { IfOk result (λ e. expression_in e ≡ expression_in entries.items) }
    {
        entries.sort_by_key(|entry| entry.component)?;
        Ok(Expressions { entries })
    }

    /// The expression that a variable has, and `None` where it stands for itself.
    pub(crate) fn get(&self, var: &Address) -> Option<&Expression>
        ensures { expression_in self.now var.now ≡ unwrap_or (option_copied result) (Kept var.now) }
    {
        let first = self.entries.partition_point(|entry| entry.component < *var);
        let Some(entry) = self.entries.get(first) else {
            return None;
        };
        if entry.component != *var {
            return None;
        }
        Some(&entry.expression)
    }
}
