//! Which of the user's variables are kept.
ghost use Rattle.std.specs.Prelude.{◌≡◌, OnOk};
ghost use Rattle.address_map.specs.Noted.{with_item};
ghost use Rattle.lazy_bridge.specs.Expressed.{SetsOne, is_marked};
ghost use Rattle.lazy_bridge.specs.Mentioned.{marks_of};

use address_map::AddressMap;
use aff_core::Address;
use lists::Memory;

// Marks these variables as kept, in place of all marks before.
pub(crate) fn mark_variables(map: &mut AddressMap, kept: &[Address]) -> Result<(), Memory>
    ensures marked { OnOk result (map.new.kept ≡ marks_of kept.now) }
    ensures vars { map.new.vars ≡ map.old.vars }
    ensures rows { map.new.rows ≡ map.old.rows }
    ensures exprs { map.new.exprs ≡ map.old.exprs }
    ensures noted { map.new.noted ≡ map.old.noted }
{
    map.clear_kept();
    for var in kept {
        mark_once(map, *var)?;
    }
    Ok(())
}

// Marks the variable, unless it is marked, or takes its mark away.
pub(crate) fn set_kept(map: &mut AddressMap, var: Address, kept: bool) -> Result<(), Memory>
    ensures marked { OnOk result (SetsOne (λ _. kept) var (is_marked map.old)
        (is_marked map.new)) }
    ensures vars { map.new.vars ≡ map.old.vars }
    ensures rows { map.new.rows ≡ map.old.rows }
    ensures exprs { map.new.exprs ≡ map.old.exprs }
    ensures noted { map.new.noted ≡ map.old.noted }
{
    if kept {
        return mark_once(map, var);
    }
    let _marked = map.unmark_kept(&var);
    Ok(())
}

// Marks the variable, unless it is marked.
fn mark_once(map: &mut AddressMap, var: Address) -> Result<(), Memory>
    ensures marked { OnOk result (map.new.kept ≡ with_item map.old.kept var) }
    ensures vars { map.new.vars ≡ map.old.vars }
    ensures rows { map.new.rows ≡ map.old.rows }
    ensures exprs { map.new.exprs ≡ map.old.exprs }
    ensures noted { map.new.noted ≡ map.old.noted }
{
    if map.is_kept(&var) {
        return Ok(());
    }
    map.mark_kept(var)
}
