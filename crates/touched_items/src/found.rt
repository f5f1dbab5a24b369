//! The items that a change touches, each with its content.
ghost use Rattle.std.specs.Prelude.{◌≡◌, ◌≤◌, ◌+◌, ◌++◌, ◌∷◌, [], IfOk, OnOk, cond, count_by, flat_map, length, map};
ghost use Rattle.std.specs.FinMap.{keys};
ghost use Rattle.std.specs.List.{filter_map, list_any};
ghost use Rattle.std.specs.Option.{option_copied};
ghost use Rattle.address_map.specs.Noted.{noted_items};
ghost use Rattle.touched_items.specs.Differences.{addresses_in, differing_addresses, group_addresses, row_addresses};
ghost use Rattle.touched_items.specs.Search.{AreInOrder, is_objective, is_row, objective_among, row_at};
ghost use Rattle.touched_items.specs.Results.{found_rows};

use crate::{Differing, ModelItems};
use address_map::{AddressMap, AddressSet};
use aff_core::{Address, Root};
use lists::Memory;
use model_store::CountedView;
use std::alloc::Global;
use user_model::{Group, Objective, Row};

/// The items that a search finds. The groups among them are those that differ.
#[derive(Debug, Drop)]
pub struct FoundItems<'a> {
    /// The addresses of all, whether they stood before or stand now, in their order, each once.
    pub addresses: Vec<Address>,
    /// The found rows that stand now, in the order of their numbers.
    pub rows: Vec<&'a Row>,
    /// The objective as it is now, where it is found.
    pub objective: Option<&'a Objective>,
}

/// The items that differ, and the rows and the objective that are noted at changed variables. Each
/// row that is found is read once, and so is the objective.
pub fn find_items<'a>(
    alloc: Global,
    reading: &mut CountedView<'a>,
    map: &AddressMap,
    differing: &Differing<'a>,
    changed: &[Address],
) -> Result<FoundItems<'a>, Memory>
    ensures addresses { IfOk result (λ found. AreInOrder
        (differing_addresses differing.now ++ flat_map (noted_items map.now.noted) changed.now)
        found.addresses.items) }
    ensures rows { IfOk result (λ found. found_rows found
        ≡ filter_map (row_at reading.old.model) found.addresses.items) }
    ensures objective { IfOk result (λ found. option_copied found.objective
        ≡ objective_among reading.old.model found.addresses.items) }
    ensures model { reading.new.model ≡ reading.old.model }
    ensures reads { IfOk result (λ found.
        reading.new.reads ≤ reading.old.reads + length found.addresses.items) }
{
    let listed = list_found(alloc, map, differing, changed)?;
    let addresses = in_order(listed);
    let rows = read_rows(alloc, reading, &addresses)?;
    let objective = read_objective(reading, &addresses);
    Ok(FoundItems {
        addresses,
        rows,
        objective,
    })
}

// The addresses of all that is found, some of them several times.
fn list_found(
    alloc: Global,
    map: &AddressMap,
    differing: &Differing<'_>,
    changed: &[Address],
) -> Result<Vec<Address>, Memory>
    ensures { IfOk result (λ list. list.items
        ≡ differing_addresses differing.now ++ flat_map (noted_items map.now.noted) changed.now) }
{
    let mut list = Vec::new(alloc);
    list_contents(&differing.before, &mut list)?;
    list_contents(&differing.after, &mut list)?;
    for var in changed {
        list_noted(map, var, &mut list)?;
    }
    Ok(list)
}

fn list_contents(contents: &ModelItems<'_>, list: &mut Vec<Address>) -> Result<(), Memory>
    ensures { OnOk result (list.new.items ≡ list.old.items ++ addresses_in contents.now) }
{
    list_groups(&contents.groups, list)?;
    list_rows(&contents.rows, list)?;
    if contents.objective.is_some() {
        list.push(Address::root(Root::Objective, 0))?;
    }
    Ok(())
}

fn list_groups(groups: &[&Group], list: &mut Vec<Address>) -> Result<(), Memory>
    ensures { OnOk result
        (list.new.items ≡ list.old.items ++ group_addresses (map (λ g. g.now) groups.now)) }
{
    for group in groups {
        list.push(Address::root(Root::Group, group.id))?;
    }
    Ok(())
}

fn list_rows(rows: &[&Row], list: &mut Vec<Address>) -> Result<(), Memory>
    ensures { OnOk result
        (list.new.items ≡ list.old.items ++ row_addresses (map (λ r. r.now) rows.now)) }
{
    for row in rows {
        list.push(Address::root(Root::Row, row.id))?;
    }
    Ok(())
}

// The items that are noted at a variable.
fn list_noted(map: &AddressMap, var: &Address, list: &mut Vec<Address>) -> Result<(), Memory>
    ensures { OnOk result
        (list.new.items ≡ list.old.items ++ noted_items map.now.noted var.now) }
{
    match map.noted(var) {
        Some(items) => list_set(items, list),
        None => Ok(()),
    }
}

fn list_set(items: &AddressSet, list: &mut Vec<Address>) -> Result<(), Memory>
    ensures { OnOk result (list.new.items ≡ list.old.items ++ keys items.now) }
{
    for item in items.iter() {
        list.push(item.0)?;
    }
    Ok(())
}

// The addresses in their order, each once.
fn in_order(mut listed: Vec<Address>) -> Vec<Address>
    ensures { AreInOrder listed.items result.items }
{
    listed.sort_unstable();
    listed.dedup();
    listed
}

// The rows at these addresses, each read once.
fn read_rows<'a>(
    alloc: Global,
    reading: &mut CountedView<'a>,
    addresses: &[Address],
) -> Result<Vec<&'a Row>, Memory>
    ensures rows { IfOk result (λ rows. map (λ r. r.now) rows.items
        ≡ filter_map (row_at reading.old.model) addresses.now) }
    ensures model { reading.new.model ≡ reading.old.model }
    ensures reads { reading.new.reads ≤ reading.old.reads + count_by is_row addresses.now }
{
    let mut rows = Vec::new(alloc);
    for at in addresses {
        if let Some(row) = read_row(reading, at) {
            rows.push(row)?;
        }
    }
    Ok(rows)
}

fn read_row<'a>(reading: &mut CountedView<'a>, at: &Address) -> Option<&'a Row>
    ensures row { option_copied result ≡ row_at reading.old.model at.now }
    ensures model { reading.new.model ≡ reading.old.model }
    ensures reads { reading.new.reads ≤ reading.old.reads + count_by is_row (at.now ∷ []) }
{
    if *at == Address::root(Root::Row, at.number()) {
        return reading.row(at.number());
    }
    None
}

fn read_objective<'a>(reading: &mut CountedView<'a>, addresses: &[Address]) -> Option<&'a Objective>
    ensures objective { option_copied result ≡ objective_among reading.old.model addresses.now }
    ensures model { reading.new.model ≡ reading.old.model }
    ensures reads { reading.new.reads
        ≤ reading.old.reads + cond (list_any is_objective addresses.now) 1 0 }
{
    if has_objective(addresses) {
        return Some(reading.objective());
    }
    None
}

fn has_objective(addresses: &[Address]) -> bool
    ensures { result ≡ list_any is_objective addresses.now }
{
    addresses.iter().any(|at| is_objective(at))
}

fn is_objective(at: &Address) -> bool
    ensures { result ≡ is_objective at.now }
{
    *at == Address::root(Root::Objective, 0)
}
