//! The user's items that are bridged otherwise by other choices.
ghost use Rattle.std.specs.Prelude.{◌≡◌, ◌++◌, ◌∷◌, [], IfOk, None, OnOk, Some, cond, filter};
ghost use Rattle.std.specs.Prelude as prelude;
ghost use Rattle.std.specs.List.{list_any};
ghost use Rattle.std.specs.Option.{option_copied};
ghost use Rattle.found_plan.specs.Read.{is_marked};
ghost use Rattle.fresh_bridging.specs.ModelImage.{group_item, objective_items, row_item};
ghost use Rattle.table_change.specs.Given.{AreGiven, is_given, passes};

use crate::kinds::{objective_kind, row_kind};
use address_map::AddressMap;
use item_core::{KIND_COUNT, Kind, group_kind};
use lists::Memory;
use model_store::UserModel;
use std::alloc::Global;
use touched_items::{Differing, ModelItems};
use user_model::{Group, Groups, Objective, Row, Rows};

/// The items of a bridged model whose kinds, as they are bridged, are changed: on both sides the same.
pub fn find_changed<'a>(
    alloc: Global,
    map: &AddressMap,
    model: &'a UserModel,
    changed: &[bool; KIND_COUNT],
) -> Result<Differing<'a>, Memory>
    ensures before { IfOk result (λ d. AreGiven (passes changed.now) (is_marked map.now)
        model.now.model d.before) }
    ensures after { IfOk result (λ d. AreGiven (passes changed.now) (is_marked map.now)
        model.now.model d.after) }
{
    Ok(Differing {
        before: find_contents(alloc, map, model, changed)?,
        after: find_contents(alloc, map, model, changed)?,
    })
}

fn find_contents<'a>(
    alloc: Global,
    map: &AddressMap,
    model: &'a UserModel,
    changed: &[bool; KIND_COUNT],
) -> Result<ModelItems<'a>, Memory>
    ensures { IfOk result (AreGiven (passes changed.now) (is_marked map.now) model.now.model) }
{
    Ok(ModelItems {
        groups: find_groups(alloc, map, model.groups(), changed)?,
        rows: find_rows(alloc, map, model.rows(), changed)?,
        objective: find_objective(map, model.objective(), changed),
    })
}

fn find_groups<'a>(
    alloc: Global,
    map: &AddressMap,
    groups: &'a Groups,
    changed: &[bool; KIND_COUNT],
) -> Result<Vec<&'a Group>, Memory>
    ensures { IfOk result (λ list. prelude.map (λ g. g.now) list.items
        ≡ filter (λ g. is_given (passes changed.now) (is_marked map.now) (group_item g))
        groups.now.items) }
{
    let mut list = Vec::new(alloc);
    for group in groups.iter() {
        push_where(&mut list, group, passes(changed, group_kind(&group.set)))?;
    }
    Ok(list)
}

fn find_rows<'a>(
    alloc: Global,
    map: &AddressMap,
    rows: &'a Rows,
    changed: &[bool; KIND_COUNT],
) -> Result<Vec<&'a Row>, Memory>
    ensures { IfOk result (λ list. prelude.map (λ r. r.now) list.items
        ≡ filter (λ r. is_given (passes changed.now) (is_marked map.now) (row_item r))
        rows.now.items) }
{
    let mut list = Vec::new(alloc);
    for row in rows.iter() {
        push_where(&mut list, row, passes(changed, row_kind(map, row)))?;
    }
    Ok(list)
}

fn find_objective<'a>(
    map: &AddressMap,
    objective: &'a Objective,
    changed: &[bool; KIND_COUNT],
) -> Option<&'a Objective>
    ensures { option_copied result
        ≡ cond (list_any (is_given (passes changed.now) (is_marked map.now))
        (objective_items objective.now)) (Some objective.now) None }
{
    match objective {
        Objective::Feasibility => None,
        Objective::Plain { sense, var } => {
            let kind = objective_kind(*sense, map.is_kept(var));
            some_where(objective, passes(changed, kind))
        }
        Objective::Affine { sense, .. } => {
            some_where(objective, passes(changed, objective_kind(*sense, false)))
        }
    }
}

fn some_where(objective: &Objective, given: bool) -> Option<&Objective>
    ensures { option_copied result ≡ cond given (Some objective.now) None }
{
    if given {
        return Some(objective);
    }
    None
}

// Puts an item last, where it is given.
fn push_where<'a, X>(list: &mut Vec<&'a X>, item: &'a X, given: bool) -> Result<(), Memory>
    ensures { OnOk result (prelude.map (λ x. x.now) list.new.items
        ≡ prelude.map (λ x. x.now) list.old.items ++ cond given (item.now ∷ []) []) }
{
    if given {
        list.push(item)?;
    }
    Ok(())
}

fn passes(changed: &[bool; KIND_COUNT], kind: Kind) -> bool
    ensures { result ≡ passes changed.now kind }
{
    changed[kind as usize]
}
