//! A line for each leaf.
ghost use Rattle.std.specs.Prelude.{◌≡◌, ◌≤◌, ◌++◌, OnOk, length, map};
ghost use Rattle.std.specs.List.{position_or_len};
ghost use Rattle.std.specs.Option.{option_copied};
ghost use Rattle.std.specs.Ordering.{is_le};
ghost use Rattle.aff_core.specs.Address.{address_cmp};
ghost use Rattle.aff_core.specs.Rising.{RiseStrictly};
ghost use Rattle.bridged_report.specs.Indexed.{objective_line_in, objective_text_in, row_line_in, row_text_at, row_text_in, variable_line_in};
ghost use Rattle.bridged_report.specs.Lines.{in_order, joined, sense_text, var_text, variable_text};

use crate::addresses::push_address;
use crate::entries::Entry;
use crate::functions::{push_components, push_function, push_index};
use crate::sets::push_set;
use address_map::AddressMap;
use aff_core::{Address, Sense};
use model_store::UserModel;
use ratio_core::Memory;
use report_core::Draft;
use solver_store::{LeafObjective, LeafRow, LeafVar, SolverModel};
use std::alloc::Global;

/// The lines of variables and of rows, each in the order of their addresses, in one such order.
pub(crate) fn push_leaves(
    draft: &mut Draft,
    alloc: Global,
    solver: &SolverModel,
    places: &AddressMap,
    model: &UserModel,
    variables: &[Entry],
    rows: &[Entry],
) -> Result<(), Memory>
    requires variables_rise { RiseStrictly variables.now }
    requires rows_rise { RiseStrictly rows.now }
    ensures { let vars = places.now.vars.indices in let leaves = solver.now.leaves in
        OnOk result (draft.new ≡ draft.old ++ joined (in_order
        (map (variable_line_in model.now.model vars leaves) variables.now
        ++ map (row_line_in model.now.model vars leaves) rows.now))) }
{
    let mut left = rows;
    for entry in variables {
        let (before, others) = left.split_at(count_before(&entry.0, left));
        push_rows(draft, alloc, solver, places, model, before)?;
        push_variable(draft, solver, places, model, entry)?;
        left = others;
    }
    push_rows(draft, alloc, solver, places, model, left)
}

// How many of the entries, which are in the order of their addresses, stand before the address.
fn count_before(at: &Address, entries: &[Entry]) -> usize
    ensures value { result
        ≡ position_or_len (λ entry. is_le (address_cmp at.now entry.0)) entries.now }
    ensures within { result ≤ length entries.now }
{
    entries
        .iter()
        .position(|entry| *at <= entry.0)
        .unwrap_or(entries.len())
}

// The line of the variable at an entry.
fn push_variable(
    draft: &mut Draft,
    solver: &SolverModel,
    places: &AddressMap,
    model: &UserModel,
    entry: &Entry,
) -> Result<(), Memory>
    ensures { OnOk result (draft.new ≡ draft.old ++ (variable_line_in model.now.model
        places.now.vars.indices solver.now.leaves entry.now).1) }
{
    match solver.var(entry.1) {
        Some(var) => push_variable_text(draft, model, &entry.0, var),
        None => Ok(()),
    }
}

fn push_variable_text(
    draft: &mut Draft,
    model: &UserModel,
    at: &Address,
    var: LeafVar,
) -> Result<(), Memory>
    ensures { OnOk result (draft.new ≡ draft.old ++ variable_text model.now.model at.now var) }
{
    draft.push("var ")?;
    push_address(draft, model, at)?;
    draft.push(" ")?;
    push_var_text(draft, var)?;
    draft.push("\n")
}

fn push_var_text(draft: &mut Draft, var: LeafVar) -> Result<(), Memory>
    ensures { OnOk result (draft.new ≡ draft.old ++ var_text var) }
{
    match var {
        LeafVar::Free => draft.push("free"),
        LeafVar::Nonneg => draft.push("nonneg"),
    }
}

fn push_rows(
    draft: &mut Draft,
    alloc: Global,
    solver: &SolverModel,
    places: &AddressMap,
    model: &UserModel,
    rows: &[Entry],
) -> Result<(), Memory>
    ensures { OnOk result (draft.new ≡ draft.old ++ joined (map (row_line_in model.now.model
        places.now.vars.indices solver.now.leaves) rows.now)) }
{
    for entry in rows {
        push_row(draft, alloc, solver, places, model, entry)?;
    }
    Ok(())
}

// The line of the row at an entry.
fn push_row(
    draft: &mut Draft,
    alloc: Global,
    solver: &SolverModel,
    places: &AddressMap,
    model: &UserModel,
    entry: &Entry,
) -> Result<(), Memory>
    ensures { OnOk result (draft.new ≡ draft.old ++ (row_line_in model.now.model
        places.now.vars.indices solver.now.leaves entry.now).1) }
{
    match solver.row(entry.1) {
        Some(row) => push_row_at(draft, alloc, places, model, &entry.0, row),
        None => Ok(()),
    }
}

fn push_row_at(
    draft: &mut Draft,
    alloc: Global,
    places: &AddressMap,
    model: &UserModel,
    at: &Address,
    row: &LeafRow,
) -> Result<(), Memory>
    ensures { OnOk result (draft.new ≡ draft.old
        ++ row_text_at model.now.model places.now.vars.indices at.now row.now) }
{
    draft.push("row ")?;
    push_address(draft, model, at)?;
    draft.push(" ")?;
    push_row_text(draft, alloc, places, model, row)?;
    draft.push("\n")
}

// What stands of a row after its address.
fn push_row_text(
    draft: &mut Draft,
    alloc: Global,
    places: &AddressMap,
    model: &UserModel,
    row: &LeafRow,
) -> Result<(), Memory>
    ensures { OnOk result (draft.new
        ≡ draft.old ++ row_text_in model.now.model places.now.vars.indices row.now) }
{
    match row {
        LeafRow::Plain { var, set } => {
            push_set(draft, set)?;
            draft.push(" : 1*")?;
            push_index(draft, places, model, *var)
        }
        LeafRow::Affine { func, set } => {
            push_set(draft, set)?;
            draft.push(" : ")?;
            push_function(draft, alloc, places, model, func)
        }
        LeafRow::AffineVec { func, set } => {
            push_set(draft, set)?;
            draft.push(" : ")?;
            push_components(draft, alloc, places, model, func.as_slice())
        }
    }
}

/// The line of an objective, if there is one.
pub(crate) fn push_objective(
    draft: &mut Draft,
    alloc: Global,
    places: &AddressMap,
    model: &UserModel,
    objective: Option<&LeafObjective>,
) -> Result<(), Memory>
    ensures { OnOk result (draft.new ≡ draft.old ++ objective_line_in model.now.model
        places.now.vars.indices (option_copied objective.entry)) }
{
    match objective {
        Some(objective) => {
            push_objective_text(draft, alloc, places, model, objective)?;
            draft.push("\n")
        }
        None => Ok(()),
    }
}

fn push_objective_text(
    draft: &mut Draft,
    alloc: Global,
    places: &AddressMap,
    model: &UserModel,
    objective: &LeafObjective,
) -> Result<(), Memory>
    ensures { OnOk result (draft.new
        ≡ draft.old ++ objective_text_in model.now.model places.now.vars.indices objective.now) }
{
    match objective {
        LeafObjective::Plain { sense, var } => {
            push_sense(draft, *sense)?;
            draft.push(" 1*")?;
            push_index(draft, places, model, *var)
        }
        LeafObjective::Affine { sense, func } => {
            push_sense(draft, *sense)?;
            draft.push(" ")?;
            push_function(draft, alloc, places, model, func)
        }
    }
}

fn push_sense(draft: &mut Draft, sense: Sense) -> Result<(), Memory>
    ensures { OnOk result (draft.new ≡ draft.old ++ sense_text sense) }
{
    match sense {
        Sense::Min => draft.push("min"),
        Sense::Max => draft.push("max"),
    }
}
