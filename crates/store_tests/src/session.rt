// Steps of a script.
ghost use Rattle.std.specs.Prelude.{◌≡◌, OnOk};

use crate::edits::{otherwise, read};
use crate::many;
use crate::shown::{digest, show, show_copies};
use model_store::{ApplyFault, Edit, UserModel};
use name_index::Name;
use test_support::Stop;

/// Makes one step, and prints what it gives. An empty line, or one that begins with `#`, is no
/// step.
pub fn step(rt: &HostRuntime, model: &mut UserModel, line: &str) -> Result<(), Stop> {
    let (word, rest) = line.split_once(' ').unwrap_or((line, ""));
    match word {
        "" | "#" => Ok(()),
        "new" => empty(rt, model),
        "show" => show(rt, model),
        "copies" => show_copies(rt, model),
        "check" => check(rt, model, rest),
        "where" => locate(rt, model, rest),
        "back" => back(rt, model, rest),
        "within" => within(rt, model, rest),
        "many" => many::step(rt, model, rest),
        "numbers" | "zeros0" | "zeros3" | "minimize" => make_otherwise(rt, model, word, rest),
        _ => make(rt, model, line),
    }
}

fn empty(rt: &HostRuntime, model: &mut UserModel) -> Result<(), Stop> {
    *model = UserModel::new(rt.alloc());
    Ok(())
}

// Whether an edit would be made, by a copy of it.
fn check(rt: &HostRuntime, model: &UserModel, line: &str) -> Result<(), Stop> {
    let edit = read(rt.alloc(), line)?;
    check_copy(rt, model, &edit)
}

fn check_copy(rt: &HostRuntime, model: &UserModel, edit: &Edit) -> Result<(), Stop> {
    let copy = edit.copy(rt.alloc())?;
    tell_check(rt, model, &copy)
}

fn tell_check(rt: &HostRuntime, model: &UserModel, edit: &Edit) -> Result<(), Stop> {
    match model.check(edit) {
        Ok(()) => println!(rt; "{edit:?}: would be made")?,
        Err(refusal) => println!(rt; "{edit:?}: {refusal}")?,
    }
    Ok(())
}

// Where the variable with a name stands.
fn locate(rt: &HostRuntime, model: &UserModel, name: &str) -> Result<(), Stop> {
    let named = Name::new(rt.alloc(), name)?;
    tell_place(rt, model, &named)
}

fn tell_place(rt: &HostRuntime, model: &UserModel, name: &Name) -> Result<(), Stop> {
    println!(rt; "{name:?}: {:?}", model.variable(name))?;
    Ok(())
}

// An edit that is made for good, if it isn't refused.
fn make(rt: &HostRuntime, model: &mut UserModel, line: &str) -> Result<(), Stop>
    ensures { OnOk result (model.new.parked ≡ model.old.parked) }
{
    let made = make_for_good(model, read(rt.alloc(), line)?);
    tell(rt, line, made)
}

fn make_otherwise(
    rt: &HostRuntime,
    model: &mut UserModel,
    word: &str,
    line: &str,
) -> Result<(), Stop> {
    let made = make_for_good(model, otherwise(word, read(rt.alloc(), line)?));
    tell(rt, line, made)
}

fn tell(rt: &HostRuntime, line: &str, made: Result<(), ApplyFault>) -> Result<(), Stop> {
    match made {
        Ok(()) => println!(rt; "{line}: made")?,
        Err(fault) => println!(rt; "{line}: {fault}")?,
    }
    Ok(())
}

/// Makes an edit for good.
pub fn make_for_good(model: &mut UserModel, edit: Edit) -> Result<(), ApplyFault>
    ensures { model.new.parked ≡ model.old.parked }
{
    let undo = model.apply(edit)?;
    model.settle(undo);
    Ok(())
}

fn back(rt: &HostRuntime, model: &mut UserModel, edits: &str) -> Result<(), Stop>
    ensures { OnOk result (model.new ≡ model.old) }
{
    let edits: Vec<&str> = edits.split("; ").collect(rt.alloc())?;
    take_back(rt, model, &edits)
}

// Makes the edits and takes them back, the last first. Whether each changes the model and leads
// back is printed.
fn take_back(rt: &HostRuntime, model: &mut UserModel, edits: &[&str]) -> Result<(), Stop>
    ensures { OnOk result (model.new ≡ model.old) }
{
    let Some((first, others)) = edits.split_first() else {
        return Ok(());
    };
    let before = digest(rt, model)?;
    let undo = model.apply(read(rt.alloc(), first)?)?;
    let changes = digest(rt, model)? != before;
    take_back(rt, model, others)?;
    model.take_back(undo);
    let leads_back = digest(rt, model)? == before;
    println!(rt; "{first}: changes {changes}, leads back {leads_back}")?;
    Ok(())
}

fn within(rt: &HostRuntime, model: &mut UserModel, edits: &str) -> Result<(), Stop> {
    let (first, others) = edits.split_once("; ").unwrap_or((edits, ""));
    settle_after(rt, model, first, others)?;
    println!(rt; "{first}: settled")?;
    Ok(())
}

// Makes an edit, and settles it after the step that follows.
fn settle_after(
    rt: &HostRuntime,
    model: &mut UserModel,
    first: &str,
    others: &str,
) -> Result<(), Stop> {
    let undo = model.apply(read(rt.alloc(), first)?)?;
    inner(rt, model, others)?;
    model.settle(undo);
    Ok(())
}

fn inner(rt: &HostRuntime, model: &mut UserModel, line: &str) -> Result<(), Stop>
    ensures { OnOk result (model.new.parked ≡ model.old.parked) }
{
    match line.strip_prefix("back ") {
        Some(edits) => back(rt, model, edits),
        None => make(rt, model, line),
    }
}
