//! Room for what undos restore, taken before anything changes.
ghost use Rattle.std.specs.Prelude.{◌≡◌, ◌+◌, ◌<◌, ◌++◌, ◌∷◌, [], IfOk, length, vec_len};
ghost use Rattle.std.specs.Vec.{vec_capacity};
ghost use Rattle.user_model.specs.Consistent.{IsConsistent, IsWithinLimits};
ghost use Rattle.user_model.specs.Undone.{before};
ghost use Rattle.model_catalog.specs.Exchange.{IsExchange, IsNoLess, contents, exchanged, standing};
ghost use Rattle.model_catalog.specs.Named.{AreNameChanges};
ghost use Rattle.model_catalog.specs.Names as names;
ghost use Rattle.model_store.specs.Rooms.{AreNamesCounted, IsParked, IsReserved};
ghost use Rattle.model_store.specs.Store.{HasParked};

use crate::Parked;
use model_catalog::{Catalog, More, NameChange};
use model_plans::EditPlan;
use ratio_core::Memory;
use user_model::Undo;

/// How many names of variables and of rows all parked undos put back at most.
#[derive(Clone, Copy)]
pub(crate) struct NameCounts {
    pub(crate) variables: usize,
    pub(crate) rows: usize,
}

/// What there is room for: the names that are put back with one undo more, and the lengths of the
/// lists of groups and of rows on its way.
#[derive(Clone, Copy)]
pub(crate) struct Reserved {
    pub(crate) names: NameCounts,
    pub(crate) groups: usize,
    pub(crate) rows: usize,
}

/// Makes room for a plan, for its undo, and for the entry of that: for the plan's own names beside
/// those that the undos put back, its own among them. Empty places are given up where no undo waits
/// that may fill them.
pub(crate) fn reserve(
    catalog: &mut Catalog,
    parked: &mut Vec<Parked>,
    plan: &EditPlan,
    names: NameCounts,
) -> Result<Reserved, Memory>
    ensures model { catalog.new.model ≡ catalog.old.model }
    ensures room { IsNoLess catalog.old.room catalog.new.room }
    ensures parked { parked.new.items ≡ parked.old.items }
    ensures spare { IfOk result (λ reserved. vec_len parked.new < vec_capacity parked.new) }
    ensures ok { IfOk result (λ reserved. IsReserved plan.now names reserved catalog.new) }
{
    sweep_settled(catalog, parked);
    make_room(catalog, parked, plan, names)
}

fn sweep_settled(catalog: &mut Catalog, parked: &[Parked])
    ensures { catalog.new ≡ catalog.old }
{
    if parked.is_empty() {
        catalog.sweep();
    }
}

fn make_room(
    catalog: &mut Catalog,
    parked: &mut Vec<Parked>,
    plan: &EditPlan,
    names: NameCounts,
) -> Result<Reserved, Memory>
    ensures model { catalog.new.model ≡ catalog.old.model }
    ensures room { IsNoLess catalog.old.room catalog.new.room }
    ensures parked { parked.new.items ≡ parked.old.items }
    ensures spare { IfOk result (λ reserved. vec_len parked.new < vec_capacity parked.new) }
    ensures ok { IfOk result (λ reserved. IsReserved plan.now names reserved catalog.new) }
{
    parked.reserve(1)?;
    let (variables, rows) = (plan.names.variables.len(), plan.names.rows.len());
    let names = NameCounts {
        variables: total(names.variables, variables)?,
        rows: total(names.rows, rows)?,
    };
    let more = More {
        groups: plan.exchange.groups.len(),
        rows: plan.exchange.rows.len(),
        variables,
        variable_names: total(names.variables, variables)?,
        row_names: total(names.rows, rows)?,
    };
    let reserved = Reserved {
        names,
        groups: total(catalog.groups().len(), more.groups)?,
        rows: total(catalog.rows().len(), more.rows)?,
    };
    catalog.reserve(&more)?;
    Ok(reserved)
}

fn total(one: usize, other: usize) -> Result<usize, Memory>
    ensures { IfOk result (λ sum. sum ≡ one + other) }
{
    one.checked_add(other).ok_or(Memory)
}

/// Makes the planned exchange, parks the entry of its undo last, and gives the undo. It takes no
/// memory.
pub(crate) fn park(
    catalog: &mut Catalog,
    parked: &mut Vec<Parked>,
    plan: EditPlan,
    names: NameCounts,
    reserved: Reserved,
) -> Undo
    requires was { IsConsistent catalog.old.model }
    requires changes { IsExchange plan.exchange }
    requires consistent { IsConsistent (exchanged plan.exchange catalog.old.model) }
    requires within { IsWithinLimits (exchanged plan.exchange catalog.old.model) }
    requires names { AreNameChanges plan.names catalog.old.model
        (exchanged plan.exchange catalog.old.model) }
    requires spare { vec_len parked.old < vec_capacity parked.old }
    requires reserved { IsReserved plan names reserved catalog.old }
    requires parked { IsParked parked.old.items names catalog.old.room }
    ensures model { catalog.new.model ≡ exchanged plan.exchange catalog.old.model }
    ensures undo { result ≡ standing catalog.old.model (contents plan.exchange) }
    ensures back { before catalog.new.model result ≡ catalog.old.model }
    ensures entry { HasParked parked.old.items parked.new.items catalog.new.model result }
    ensures parked { IsParked parked.new.items reserved.names catalog.new.room }
{
    let mut with = plan.exchange;
    let mut listed = plan.names;
    catalog.exchange(&mut with, &mut listed);
    let variables = catalog.variable_count() + put_count(&listed.variables);
    let entry = Parked {
        names: listed,
        groups: reserved.groups,
        rows: reserved.rows,
        variables,
    };
    push_with_room(parked, entry);
    Undo::from(with)
}

// How many names are put in.
fn put_count(listed: &[NameChange]) -> usize
    ensures { result ≡ names.put_count listed.now }
{
    listed.iter().filter(|l| l.name.is_some()).count()
}

// Puts an entry last where there is room, so that no memory is asked for.
fn push_with_room(parked: &mut Vec<Parked>, entry: Parked)
    requires { vec_len parked.old < vec_capacity parked.old }
    ensures { parked.new.items ≡ parked.old.items ++ entry ∷ [] }
{
    match parked.push(entry) {
        Ok(()) => (),
        Err(_) => unreachable!(),
    }
}

/// Removes the last entry. There is one.
pub(crate) fn take_last(parked: &mut Vec<Parked>, names: &mut NameCounts) -> Parked
    requires some { 0 < vec_len parked.old }
    requires counted { AreNamesCounted parked.old.items names.old }
    ensures last { parked.old.items ≡ parked.new.items ++ result ∷ [] }
    ensures counted { AreNamesCounted parked.new.items names.new }
{
    let Some(entry) = parked.pop() else {
        unreachable!()
    };
    names.variables -= entry.names.variables.len();
    names.rows -= entry.names.rows.len();
    entry
}
