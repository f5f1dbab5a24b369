//! The walk over the rows of a model that has no feasible point.
ghost use Rattle.std.specs.Prelude.{◌≡◌, ◌++◌, ◌∷◌, [], None, IfErr, IfOk, true, List, OnOk, length};
ghost use Rattle.cache_layer.specs.Cached.{model_in, state_of};
ghost use Rattle.cache_layer.specs.CacheState.{Bridging, with_model};
ghost use Rattle.model_conflict.specs.Steps.{CanWalk, IsTrialOf, IsFirstRow, Tries, with_needed};
ghost use Rattle.conflict_laws.specs.Rotated.{rotated_list};
ghost use Rattle.model_conflict.specs.Walk.{FindsFrom, GivesGood, NamesRows, infeasible_by, rotated};
ghost use Rattle.user_model.specs.Edited.{edited};
ghost use Rattle.user_model.specs.Refusals.{first_refusal};
ghost use Rattle.user_model.specs.Valid.{IsValid, IsValidRow};
ghost use Rattle.user_model.specs.declared.row.Row.{Row};

use crate::optimizing::{Duals, Optimum, optimize};
use crate::{Found, Points};
use bridge_face::Bridge;
use cache_layer::{Cache, EditFault, OptFault};
use cert_core::{Certificate, DualRows};
use lists::{Duplicate, Memory, Sequence};
use model_store::UserModel;
use name_index::{Name, Names};
use ratio_core::Ratios;
use row_again::row_edit;
use std::alloc::Global;
use std::mem;
use user_model::{Edit, Row};

// The rows that are needed so far, each with its point, and duals of all rows that are left.
#[derive(Drop)]
struct Walked {
    rows: Names,
    points: Points,
    duals: Duals,
}

// The trial of the first row: its name, and the edits that delete it and add it again.
#[derive(Drop)]
struct Trial {
    name: Name,
    delete: Edit,
    add: Edit,
}

/// Tries each row by the model without it, and keeps those that are needed.
pub(crate) fn walk<B: Bridge>(
    cache: &mut Cache<B>,
    pivots: u64,
    duals: Duals,
) -> Result<Found, OptFault>
    requires can { CanWalk (state_of cache.old) (length (model_in cache.old).rows) }
    requires duals { GivesGood (state_of cache.old) pivots (infeasible_by duals) }
    ensures finds { FindsFrom (state_of cache.old) pivots duals result }
    ensures rows { IfOk result (NamesRows (model_in cache.new)) }
    ensures groups { OnOk result ((model_in cache.new).groups ≡ (model_in cache.old).groups) }
{
    let alloc = duals.vars.allocator();
    let count = cache.model().rows().len();
    let mut walked = none_needed(alloc, duals);
    for _ in 0..count {
        try_first(alloc, cache, pivots, &mut walked)?;
    }
    Ok(Found::Conflict {
        rows: walked.rows,
        certificate: certificate_of(walked.duals),
        points: walked.points,
    })
}

// No row is needed so far.
fn none_needed(alloc: Global, duals: Duals) -> Walked
    ensures rows { result.rows ≡ [] }
    ensures points { result.points ≡ [] }
    ensures duals { result.duals ≡ duals }
{
    Walked {
        rows: Names::new(alloc),
        points: Points::new(alloc),
        duals,
    }
}

fn certificate_of(duals: Duals) -> Certificate
    ensures { result ≡ infeasible_by duals }
{
    Certificate::Infeasible {
        gap: duals.gap,
        rows: duals.rows,
        vars: duals.vars,
    }
}

// Tries the first row. Where it is needed, it is the last one afterwards.
fn try_first<B: Bridge>(
    alloc: Global,
    cache: &mut Cache<B>,
    pivots: u64,
    walked: &mut Walked,
) -> Result<(), OptFault>
    requires can { CanWalk (state_of cache.old) 1 }
    requires first { (row : Row) × (rest : List Row)
        × IsFirstRow (model_in cache.old) row rest }
    ensures { (row : Row) (rest : List Row) → IsFirstRow (model_in cache.old) row rest
        → Tries (state_of cache.old) pivots row rest walked.old result (state_of cache.new)
        walked.new }
{
    let Ok(trial) = first_trial(alloc, cache) else {
        return Err(OptFault::Memory);
    };
    let Trial { name, delete, add } = trial;
    // By name: freed where it falls, an edit is taken apart by its variants.
    match make(cache, delete) {
        Ok(()) => {}
        Err(fault) => {
            drop(add);
            return Err(fault);
        }
    }
    let optimum = match optimize(cache, pivots) {
        Ok(optimum) => optimum,
        Err(fault) => {
            drop(add);
            return Err(fault);
        }
    };
    match optimum {
        Optimum::Infeasible(duals) => {
            drop(add);
            walked.duals = duals;
            Ok(())
        }
        Optimum::Point(x) => add_again(cache, add, walked, name, x),
    }
}

// Adds a row again that is needed, and notes it.
fn add_again<B: Bridge>(
    cache: &mut Cache<B>,
    add: Edit,
    walked: &mut Walked,
    name: Name,
    x: Ratios,
) -> Result<(), OptFault>
    requires attached { cache.old.attached ≡ true }
    requires accepted { first_refusal (model_in cache.old) add ≡ None }
    requires bridged { Bridging (with_model (state_of cache.old) (edited (model_in cache.old) add)) }
    ensures state { OnOk result (state_of cache.new
        ≡ with_model (state_of cache.old) (edited (model_in cache.old) add)) }
    ensures noted { OnOk result (walked.new ≡ with_needed walked.old name x) }
    ensures err { IfErr result (λ fault. fault ≡ OptFault.Memory) }
{
    make(cache, add)?;
    match keep(walked, name, x) {
        Ok(()) => Ok(()),
        Err(_) => Err(OptFault::Memory),
    }
}

// The trial of the first row.
fn first_trial<B: Bridge>(alloc: Global, cache: &Cache<B>) -> Result<Trial, Memory>
    requires attached { cache.now.attached ≡ true }
    requires first { (row : Row) × (rest : List Row)
        × IsFirstRow (model_in cache.now) row rest }
    ensures trial { (row : Row) (rest : List Row) → IsFirstRow (model_in cache.now) row rest
        → IfOk result (IsTrialOf (model_in cache.now) row) }
    ensures stands { Bridging (state_of cache.now) }
    ensures valid { IsValid (model_in cache.now) }
{
    // what this ensures: the fresh bridging of the model stands
    let _stands = cache.attached();
    let user = cache.model();
    let row = first_row(user);
    trial_of(alloc, user, row)
}

fn first_row(model: &UserModel) -> &Row
    requires { (row : Row) × (rest : List Row) × IsFirstRow model.now.model row rest }
    ensures is { (row : Row) (rest : List Row) → IsFirstRow model.now.model row rest
        → result.now ≡ row }
    ensures valid { IsValid model.now.model }
{
    match model.rows().iter().next() {
        Some(row) => row,
        None => unreachable!(),
    }
}

fn trial_of(alloc: Global, model: &UserModel, row: &Row) -> Result<Trial, Memory>
    requires { IsValidRow model.now.model.groups row.now }
    ensures { IfOk result (IsTrialOf model.now.model row.now) }
{
    let name = row.name.copy()?;
    let gone = row.name.copy()?;
    let add = row_edit(alloc, model, row)?;
    Ok(Trial {
        name,
        delete: Edit::DeleteRow { row: gone },
        add,
    })
}

// Makes an edit that isn't refused, nor is the bridging of its model.
fn make<B: Bridge>(cache: &mut Cache<B>, edit: Edit) -> Result<(), OptFault>
    requires attached { cache.old.attached ≡ true }
    requires accepted { first_refusal (model_in cache.old) edit ≡ None }
    requires bridged { Bridging (with_model (state_of cache.old)
        (edited (model_in cache.old) edit)) }
    ensures ok { OnOk result (state_of cache.new
        ≡ with_model (state_of cache.old) (edited (model_in cache.old) edit)) }
    ensures err { IfErr result (λ fault. fault ≡ OptFault.Memory) }
{
    // what these ensure: the choices are sound, and the model is valid
    let _sound = cache.lazy().table();
    let _valid = cache.model().rows();
    match cache.edit(edit) {
        Ok(_changed) => Ok(()),
        Err(fault) => match fault {
            EditFault::Memory => Err(OptFault::Memory),
            _ => unreachable!(),
        },
    }
}

// Notes a row that is needed, which is the last one now. Its duals become the last, too.
fn keep(walked: &mut Walked, name: Name, x: Ratios) -> Result<(), Memory>
    ensures { OnOk result (walked.new ≡ with_needed walked.old name x) }
{
    push(&mut walked.rows, name)?;
    push(&mut walked.points, x)?;
    rotate_duals(&mut walked.duals);
    Ok(())
}

fn push<T: Drop>(list: &mut Sequence<T>, item: T) -> Result<(), Memory>
    ensures { OnOk result (list.new ≡ list.old ++ item ∷ []) }
{
    match list.push(item) {
        Ok(()) => Ok(()),
        Err((_, memory)) => Err(memory),
    }
}

// The first row's duals go last.
fn rotate_duals(duals: &mut Duals)
    ensures { duals.new ≡ rotated duals.old }
{
    let none = DualRows::new(duals.vars.allocator());
    let rows = mem::replace(&mut duals.rows, none);
    duals.rows = rotated_rows(rows);
}

#[tactic(auto, using(crate::proofs::Rotated::rotated_is, crate::proofs::Rotated::rotated_none))]
fn rotated_rows(rows: DualRows) -> DualRows
    ensures { result ≡ rotated_list rows }
{
    let mut list = rows.into_vec();
    if list.is_empty() {
        return DualRows::from_vec(list);
    }
    list.rotate_left(1);
    DualRows::from_vec(list)
}
