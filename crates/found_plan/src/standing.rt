//! What stands for the variables that found items name.
ghost use Rattle.std.specs.Prelude.{◌≡◌, ◌++◌, ◌∷◌, [], IfOk, OnOk, flat_map};
ghost use Rattle.std.specs.Prelude as prelude;
ghost use Rattle.std.specs.Option.{option_copied};
ghost use Rattle.fresh_bridging.specs.Entries.{expression_in};
ghost use Rattle.found_plan.specs.Read.{first_named, named_by, named_in, named_in_objective, named_in_row};
ghost use Rattle.found_plan.specs.Read.{own_entries, own_entry, read_entries, read_entry, read_expression};

use address_map::AddressMap;
use aff_core::{Address, Aff, Root};
use bridge_plan::{Entry, Standing};
use item_core::Expression;
use lists::{Duplicate, Memory};
use std::alloc::Global;
use user_model::{Group, GroupVar, Objective, Row, UserFunc};

/// What stands for the variables that rows and an objective name: for those of these groups what the
/// standing has, and for others what the map has.
pub fn standing_for(
    alloc: Global,
    standing: &Standing,
    map: &AddressMap,
    groups: &[&Group],
    rows: &[&Row],
    objective: Option<&Objective>,
) -> Result<Standing, Memory>
    ensures { IfOk result (λ s. expression_in s
        ≡ expression_in (own_entries standing.now (prelude.map (λ g. g.now) groups.now)
        ++ read_entries map.now (named_by (prelude.map (λ r. r.now) rows.now)
        (option_copied objective.entry)))) }
{
    let mut entries = Vec::new(alloc);
    for group in groups {
        push_own(&mut entries, standing, group.vars.as_slice())?;
    }
    read_found(&mut entries, map, rows, objective)?;
    Standing::of(alloc, entries)
}

// Puts what stands for the variables that rows and an objective name last.
fn read_found(
    entries: &mut Vec<Entry>,
    map: &AddressMap,
    rows: &[&Row],
    objective: Option<&Objective>,
) -> Result<(), Memory>
    ensures { OnOk result (entries.new.items ≡ entries.old.items
        ++ read_entries map.now (named_by (prelude.map (λ r. r.now) rows.now)
        (option_copied objective.entry))) }
{
    read_rows(entries, map, rows)?;
    match objective {
        None => Ok(()),
        Some(objective) => read_objective(entries, map, objective),
    }
}

fn read_rows(entries: &mut Vec<Entry>, map: &AddressMap, rows: &[&Row]) -> Result<(), Memory>
    ensures { OnOk result (entries.new.items ≡ entries.old.items
        ++ read_entries map.now (flat_map (λ r. named_in_row r.func)
        (prelude.map (λ r. r.now) rows.now))) }
{
    for row in rows {
        read_row(entries, map, &row.func)?;
    }
    Ok(())
}

// Puts what stands for variables by the standing last.
fn push_own(entries: &mut Vec<Entry>, standing: &Standing, vars: &[GroupVar]) -> Result<(), Memory>
    ensures { OnOk result (entries.new.items ≡ entries.old.items
        ++ prelude.map (own_entry standing.now) vars.now) }
{
    for var in vars {
        let component = Address::root(Root::Variable, var.number);
        let expression = standing.expression(&component)?;
        entries.push(Entry {
            component,
            expression,
        })?;
    }
    Ok(())
}

// Puts what stands for the variables that a row names last.
fn read_row(entries: &mut Vec<Entry>, map: &AddressMap, func: &UserFunc) -> Result<(), Memory>
    ensures { OnOk result (entries.new.items ≡ entries.old.items
        ++ read_entries map.now (named_in_row func.now)) }
{
    match func {
        UserFunc::Plain(var) => read_variable(entries, map, var),
        UserFunc::Affine(func) => read_function(entries, map, func),
        UserFunc::PlainVec(vars) => read_each(entries, map, vars.as_slice()),
        UserFunc::AffineVec(funcs) => read_functions(entries, map, funcs.as_slice()),
    }
}

fn read_objective(
    entries: &mut Vec<Entry>,
    map: &AddressMap,
    objective: &Objective,
) -> Result<(), Memory>
    ensures { OnOk result (entries.new.items ≡ entries.old.items
        ++ read_entries map.now (named_in_objective objective.now)) }
{
    match objective {
        Objective::Feasibility => Ok(()),
        Objective::Plain { var, .. } => read_variable(entries, map, var),
        Objective::Affine { func, .. } => read_function(entries, map, func),
    }
}

fn read_functions(entries: &mut Vec<Entry>, map: &AddressMap, funcs: &[Aff]) -> Result<(), Memory>
    ensures { OnOk result (entries.new.items ≡ entries.old.items
        ++ read_entries map.now (flat_map named_in funcs.now)) }
{
    for func in funcs {
        read_function(entries, map, func)?;
    }
    Ok(())
}

fn read_function(entries: &mut Vec<Entry>, map: &AddressMap, func: &Aff) -> Result<(), Memory>
    ensures { OnOk result (entries.new.items ≡ entries.old.items
        ++ read_entries map.now (named_in func.now)) }
{
    for (var, _) in func.terms() {
        read_variable(entries, map, var)?;
    }
    Ok(())
}

fn read_each(entries: &mut Vec<Entry>, map: &AddressMap, vars: &[Address]) -> Result<(), Memory>
    ensures { OnOk result (entries.new.items ≡ entries.old.items
        ++ read_entries map.now vars.now) }
{
    for var in vars {
        read_variable(entries, map, var)?;
    }
    Ok(())
}

fn read_variable(entries: &mut Vec<Entry>, map: &AddressMap, var: &Address) -> Result<(), Memory>
    ensures { OnOk result (entries.new.items ≡ entries.old.items
        ++ read_entry map.now var.now ∷ []) }
{
    entries.push(Entry {
        component: *var,
        expression: expression_of(map, var)?,
    })?;
    Ok(())
}

// What stands for a variable by its function, which is a variable where it is marked as kept.
fn expression_of(map: &AddressMap, var: &Address) -> Result<Expression, Memory>
    ensures { IfOk result (λ e. e ≡ read_expression map.now var.now) }
{
    let Some(func) = map.expr(var) else {
        return Ok(Expression::Kept { var: *var });
    };
    if map.is_kept(var) {
        return Ok(Expression::Kept {
            var: first_named(var, func),
        });
    }
    Ok(Expression::Bridged { func: func.copy()? })
}

fn first_named(var: &Address, func: &Aff) -> Address
    ensures { result ≡ first_named var.now func.now }
{
    match func.term(0) {
        Some((named, _)) => named,
        None => *var,
    }
}
