//! The items of an array, added one after another.
ghost use Rattle.serde_json.specs.Data.{Data};
ghost use Rattle.serde_json.specs.View.{items_view, view};
ghost use Rattle.mof_values.specs.Walked.{MeetsWalk, Walked, each};

use mof_values::MofFault;
use serde_json::Value;
use std::alloc::Global;

/// What items are added to, by what is known beside them.
pub(crate) trait AddItem<K> {
    /// What a walk over the items gives.
    ghost Seen: { Type 0 };

    ghost seen: { Self → Seen };

    ghost with_item: { K → Seen → Data → Walked Seen };

    fn add_item(&mut self, alloc: Global, known: &K, item: &Value) -> Result<(), MofFault>
        ensures { MeetsWalk (λ _. seen self.new) result
            (with_item known.now (seen self.old) (view item.now)) };
}

/// Adds the items in order, up to the first fault.
pub(crate) fn add_each<K, S: AddItem<K>>(
    alloc: Global,
    known: &K,
    sum: &mut S,
    items: &[Value],
) -> Result<(), MofFault>
    ensures { MeetsWalk (λ _. S.seen sum.new) result
        (each (S.with_item known.now) 0 (S.seen sum.old) (items_view items.now)) }
{
    for (place, item) in items.iter().enumerate() {
        match sum.add_item(alloc, known, item) {
            Ok(()) => (),
            Err(fault) => return Err(fault.under_index(alloc, place)),
        }
    }
    Ok(())
}
