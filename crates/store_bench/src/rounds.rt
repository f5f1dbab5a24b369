// The model, and the rounds of edits of it.
ghost use Rattle.std.specs.Prelude.{◌≡◌, ◌<◌, OnOk};

use crate::edits::{OTHER, VARIABLE, add_row, add_variable, edit};
use crate::kind::Kind;
use model_store::{ApplyFault, Edit, Undo, UserModel};
use numbered_list::Change;
use std::alloc::Global;

/// How many edits were made, and the checksum of what their undos list.
#[derive(Clone, Copy)]
pub struct Tally {
    pub edits: u64,
    pub sum: u64,
}

// How many rows on the next round's row is.
const STRIDE: u64 = 7919;

/// The edits of one kind of a model with this number of rows, one a round.
pub fn tally_edits(alloc: Global, rows: u32, kind: Kind, rounds: u32) -> Result<Tally, ApplyFault>
    requires { 0 < rows }
{
    let mut model = UserModel::new(alloc);
    let made = tally_on(alloc, &mut model, rows, kind, rounds);
    drop(model);
    made
}

// The model is lent, so that it is freed in one place.
fn tally_on(
    alloc: Global,
    model: &mut UserModel,
    rows: u32,
    kind: Kind,
    rounds: u32,
) -> Result<Tally, ApplyFault>
    requires { 0 < rows }
{
    build(alloc, model, rows, kind)?;
    tally_rounds(alloc, model, rows, kind, rounds)
}

fn build(alloc: Global, model: &mut UserModel, rows: u32, kind: Kind) -> Result<(), ApplyFault> {
    make_for_good(model, add_variable(alloc, VARIABLE)?)?;
    make_for_good(model, add_variable(alloc, OTHER)?)?;
    for row in 0..rows {
        make_for_good(model, add_row(alloc, kind, row)?)?;
    }
    Ok(())
}

fn tally_rounds(
    alloc: Global,
    model: &mut UserModel,
    rows: u32,
    kind: Kind,
    rounds: u32,
) -> Result<Tally, ApplyFault>
    requires { 0 < rows }
{
    let mut tally = Tally { edits: 0, sum: 0 };
    for round in 0..rounds {
        let row = (u64::from(round) * STRIDE % u64::from(rows)) as u32;
        let digest = make(model, kind, edit(alloc, kind, row, round)?)?;
        if let Kind::ReplaceRow = kind {
            make_for_good(model, add_row(alloc, kind, row)?)?;
        }
        tally.edits = tally.edits.wrapping_add(1);
        tally.sum = tally.sum.wrapping_mul(31).wrapping_add(digest);
    }
    Ok(tally)
}

// A row that is renamed has its name back for the next round, and a deleted variable its rows; the
// other edits stand.
fn make(model: &mut UserModel, kind: Kind, edit: Edit) -> Result<u64, ApplyFault> {
    match kind {
        Kind::RenameRow | Kind::DeleteVariable => make_and_take_back(model, edit),
        _ => make_for_good(model, edit),
    }
}

fn make_and_take_back(model: &mut UserModel, edit: Edit) -> Result<u64, ApplyFault>
    ensures { OnOk result (model.new.model ≡ model.old.model) }
{
    let undo = model.apply(edit)?;
    let digest = digest(&undo);
    model.take_back(undo);
    Ok(digest)
}

fn make_for_good(model: &mut UserModel, edit: Edit) -> Result<u64, ApplyFault> {
    let undo = model.apply(edit)?;
    let digest = digest(&undo);
    model.settle(undo);
    Ok(digest)
}

// The numbers of the groups and of the rows that are listed.
fn digest(undo: &Undo) -> u64 {
    let groups = with_numbers(1, undo.groups.as_slice());
    with_numbers(
        groups.wrapping_mul(31).wrapping_add(1),
        undo.rows.as_slice(),
    )
}

// A sum with the numbers of changes mixed in, whatever is there.
fn with_numbers<X>(start: u64, changes: &[Change<X>]) -> u64 {
    let mut sum = start;
    for change in changes {
        sum = sum.wrapping_mul(31).wrapping_add(u64::from(change.number));
    }
    sum
}
