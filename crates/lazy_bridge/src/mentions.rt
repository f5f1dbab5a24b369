//! Which rows, and whether the objective, name which variables.
ghost use Rattle.std.specs.Prelude.{◌≡◌, ◌&&◌, OnOk, true};
ghost use Rattle.std.specs.Prelude as prelude;
ghost use Rattle.std.specs.FinMap as finite;
ghost use Rattle.std.specs.List.{list_any};
ghost use Rattle.aff_core.specs.Address.{address_eq, root_address};
ghost use Rattle.aff_core.specs.declared.root.Root.TheVariants as root;
ghost use Rattle.lazy_bridge.specs.Mentioned.{IsMentionIndex, NotesPairs, contents_name, row_names};
ghost use Rattle.user_model.specs.Functions.{func_mentions, has_term};
ghost use Rattle.user_model.specs.Model.{objective_mentions};

use address_map::AddressMap;
use aff_core::{Address, Aff, Root};
use lists::Memory;
use model_store::UserModel;
use touched_items::ModelItems;
use user_model::{Objective, Row, Rows, UserFunc};

// Notes anew what the rows and the objective of a model name, in place of all notes before.
pub(crate) fn note_model(map: &mut AddressMap, model: &UserModel) -> Result<(), Memory>
    ensures index { OnOk result (IsMentionIndex model.now.model map.new.noted) }
    ensures vars { map.new.vars ≡ map.old.vars }
    ensures rows { map.new.rows ≡ map.old.rows }
    ensures exprs { map.new.exprs ≡ map.old.exprs }
    ensures kept { map.new.kept ≡ map.old.kept }
{
    map.clear_notes();
    note_rows(map, model.rows())?;
    note_objective(map, model.objective(), true)
}

// Notes what the rows and the objective among some items name, or takes these notes away.
pub(crate) fn note_contents(
    map: &mut AddressMap,
    contents: &ModelItems<'_>,
    noted: bool,
) -> Result<(), Memory>
    ensures noted { OnOk result (NotesPairs (contents_name contents.now) noted map.old.noted
        map.new.noted) }
    ensures vars { map.new.vars ≡ map.old.vars }
    ensures rows { map.new.rows ≡ map.old.rows }
    ensures exprs { map.new.exprs ≡ map.old.exprs }
    ensures kept { map.new.kept ≡ map.old.kept }
{
    note_found(map, &contents.rows, noted)?;
    match contents.objective {
        None => Ok(()),
        Some(objective) => note_objective(map, objective, noted),
    }
}

fn note_found(map: &mut AddressMap, rows: &[&Row], noted: bool) -> Result<(), Memory>
    ensures noted { OnOk result (NotesPairs (λ var at. list_any (λ row. row_names row var at)
        (prelude.map (λ r. r.now) rows.now)) noted map.old.noted map.new.noted) }
    ensures vars { map.new.vars ≡ map.old.vars }
    ensures rows { map.new.rows ≡ map.old.rows }
    ensures exprs { map.new.exprs ≡ map.old.exprs }
    ensures kept { map.new.kept ≡ map.old.kept }
{
    for row in rows {
        note_func(map, Address::root(Root::Row, row.id), &row.func, noted)?;
    }
    Ok(())
}

fn note_rows(map: &mut AddressMap, rows: &Rows) -> Result<(), Memory>
    ensures noted { OnOk result (NotesPairs
        (λ var at. list_any (λ row. row_names row var at) rows.now.items) true
        map.old.noted map.new.noted) }
    ensures vars { map.new.vars ≡ map.old.vars }
    ensures rows { map.new.rows ≡ map.old.rows }
    ensures exprs { map.new.exprs ≡ map.old.exprs }
    ensures kept { map.new.kept ≡ map.old.kept }
{
    for row in rows.iter() {
        note_func(map, Address::root(Root::Row, row.id), &row.func, true)?;
    }
    Ok(())
}

// Notes the objective at each variable that it names, or takes the notes away.
fn note_objective(map: &mut AddressMap, objective: &Objective, noted: bool) -> Result<(), Memory>
    ensures noted { OnOk result (NotesPairs (λ var at. address_eq at (root_address root.Objective 0)
        && objective_mentions var objective.now) noted map.old.noted map.new.noted) }
    ensures vars { map.new.vars ≡ map.old.vars }
    ensures rows { map.new.rows ≡ map.old.rows }
    ensures exprs { map.new.exprs ≡ map.old.exprs }
    ensures kept { map.new.kept ≡ map.old.kept }
{
    let at = Address::root(Root::Objective, 0);
    match objective {
        Objective::Feasibility => Ok(()),
        Objective::Plain { var, .. } => set_noted(map, *var, at, noted),
        Objective::Affine { func, .. } => note_terms(map, at, func, noted),
    }
}

// Notes the item at each variable that its function names, or takes the notes away.
fn note_func(
    map: &mut AddressMap,
    item: Address,
    func: &UserFunc,
    noted: bool,
) -> Result<(), Memory>
    ensures noted { OnOk result
        (NotesPairs (λ var at. address_eq at item && func_mentions var func.now)
        noted map.old.noted map.new.noted) }
    ensures vars { map.new.vars ≡ map.old.vars }
    ensures rows { map.new.rows ≡ map.old.rows }
    ensures exprs { map.new.exprs ≡ map.old.exprs }
    ensures kept { map.new.kept ≡ map.old.kept }
{
    match func {
        UserFunc::Plain(var) => set_noted(map, *var, item, noted),
        UserFunc::Affine(func) => note_terms(map, item, func, noted),
        UserFunc::PlainVec(vars) => note_each(map, item, vars.as_slice(), noted),
        UserFunc::AffineVec(funcs) => note_components(map, item, funcs.as_slice(), noted),
    }
}

// Notes the item at each of the variables, or takes the notes away.
fn note_each(
    map: &mut AddressMap,
    item: Address,
    vars: &[Address],
    noted: bool,
) -> Result<(), Memory>
    ensures noted { OnOk result (NotesPairs
        (λ var at. address_eq at item && list_any (address_eq var) vars.now)
        noted map.old.noted map.new.noted) }
    ensures vars { map.new.vars ≡ map.old.vars }
    ensures rows { map.new.rows ≡ map.old.rows }
    ensures exprs { map.new.exprs ≡ map.old.exprs }
    ensures kept { map.new.kept ≡ map.old.kept }
{
    for var in vars {
        set_noted(map, *var, item, noted)?;
    }
    Ok(())
}

// Notes the item at each variable that one of its functions has a term of, or takes the notes away.
fn note_components(
    map: &mut AddressMap,
    item: Address,
    funcs: &[Aff],
    noted: bool,
) -> Result<(), Memory>
    ensures noted { OnOk result (NotesPairs
        (λ var at. address_eq at item && list_any (has_term var) funcs.now)
        noted map.old.noted map.new.noted) }
    ensures vars { map.new.vars ≡ map.old.vars }
    ensures rows { map.new.rows ≡ map.old.rows }
    ensures exprs { map.new.exprs ≡ map.old.exprs }
    ensures kept { map.new.kept ≡ map.old.kept }
{
    for func in funcs {
        note_terms(map, item, func, noted)?;
    }
    Ok(())
}

// Notes the item at each variable that the function has a term of, or takes the notes away.
fn note_terms(map: &mut AddressMap, item: Address, func: &Aff, noted: bool) -> Result<(), Memory>
    ensures noted { OnOk result (NotesPairs (λ var at. address_eq at item && has_term var func.now)
        noted map.old.noted map.new.noted) }
    ensures vars { map.new.vars ≡ map.old.vars }
    ensures rows { map.new.rows ≡ map.old.rows }
    ensures exprs { map.new.exprs ≡ map.old.exprs }
    ensures kept { map.new.kept ≡ map.old.kept }
{
    for (var, _) in func.terms() {
        set_noted(map, *var, item, noted)?;
    }
    Ok(())
}

// Notes the item at the variable, unless it is noted there, or takes the note away.
fn set_noted(map: &mut AddressMap, var: Address, item: Address, noted: bool) -> Result<(), Memory>
    ensures noted { OnOk result (NotesPairs (λ v at. address_eq at item && address_eq v var) noted
        map.old.noted map.new.noted) }
    ensures vars { map.new.vars ≡ map.old.vars }
    ensures rows { map.new.rows ≡ map.old.rows }
    ensures exprs { map.new.exprs ≡ map.old.exprs }
    ensures kept { map.new.kept ≡ map.old.kept }
{
    if noted {
        return note_once(map, var, item);
    }
    let _stood = map.unnote(&var, &item);
    Ok(())
}

// Notes the item at the variable, unless it is noted there.
fn note_once(map: &mut AddressMap, var: Address, item: Address) -> Result<(), Memory>
    ensures noted { OnOk result (NotesPairs (λ v at. address_eq at item && address_eq v var) true
        map.old.noted map.new.noted) }
    ensures vars { map.new.vars ≡ map.old.vars }
    ensures rows { map.new.rows ≡ map.old.rows }
    ensures exprs { map.new.exprs ≡ map.old.exprs }
    ensures kept { map.new.kept ≡ map.old.kept }
{
    if map.is_noted(&var, &item) {
        return Ok(());
    }
    map.note(var, item)
}
