//! What lines do by whether a group of edits is open.
ghost use Rattle.std.specs.Prelude.{◌≡◌, ◌≢◌, ◌≤◌, ◌&&◌, ◌∷◌, ◌++◌, [], IfOk, None, Ok, OnOk, false, true};
ghost use Rattle.cache_layer.specs.Answers.{IsGroupAnswer};
ghost use Rattle.cache_layer.specs.Cached.{state_of};
ghost use Rattle.edit_engine.specs.Counts.{TakesFew};
ghost use Rattle.edit_engine.specs.Held.{KeepsRefused};
ghost use Rattle.edit_engine.specs.Lines.{asks_by, is_load};
ghost use Rattle.edit_engine.specs.Script.{DoesBy, DoesInGroup, Makes, TellsCall, edits_after, group_after, group_answer, group_by, held as is_held, is_end, is_printed, machine_by};
ghost use Rattle.io_face.specs.Fault.{HasFaulted};
ghost use Rattle.io_face.specs.Shelf.{AsksFor};
ghost use Rattle.io_face.specs.Told.{told_by};

use crate::lines::{obey_alone, refuse};
use crate::refusals::group_refusal;
use bridge_face::Bridge;
use cache_layer::{Cache, GroupFault};
use file_answers::tell_refusal;
use io_face::Shelf;
use lists::Memory;
use mof_read::Edits;
use report_core::{Answer, Refused, done, held};
use script_core::Command;
use std::alloc::Global;
use user_model::Edit;

/// Does what a command says, by whether a group of edits is open.
pub(crate) fn obey<B: Bridge, H: Shelf>(
    alloc: Global,
    cache: &mut Cache<B>,
    group: &mut Option<Edits>,
    pivots: u32,
    shelf: &mut H,
    command: Command,
) -> Result<Answer, Memory>
    ensures step { let old = state_of cache.old in
        let told = told_by (H.files shelf.old) (H.sure shelf.old) in
        Makes (DoesBy group.old (machine_by old group.old pivots told) command) old result
        (state_of cache.new) }
    ensures group { IfOk result (λ answer.
        group.new ≡ group_after group.old (Ok command) answer) }
    ensures untouched { IfOk result (λ answer. KeepsRefused answer cache.old cache.new) }
    ensures few { IfOk result (λ answer. TakesFew answer cache.old.lazy cache.new.lazy) }
    ensures files { H.files shelf.new ≡ H.files shelf.old }
    ensures sure { H.sure shelf.new ≡ H.sure shelf.old }
    ensures count { H.faults shelf.old ≤ H.faults shelf.new }
    ensures cause { is_load (Ok command) ≡ true → result ≡ Ok Answer.ReadFault
        → HasFaulted (H.faults shelf.old) (H.faults shelf.new) }
    ensures sound { is_load (Ok command) ≡ true → result ≢ Ok Answer.ReadFault
        → H.faults shelf.new ≡ H.faults shelf.old }
    ensures asks { is_load (Ok command) ≡ true
        → OnOk result (AsksFor (H.asked shelf.old) (H.asked shelf.new)
        (asks_by group.old (state_of cache.old) (Ok command))) }
    ensures unasked { is_load (Ok command) ≡ false → shelf.new ≡ shelf.old }
{
    match group {
        None => {
            open_for(alloc, group, &command);
            obey_alone(alloc, cache, pivots, shelf, command)
        }
        Some(edits) => {
            let may_close = ends_group(&command);
            let answer = obey_in_group(alloc, cache, edits, command)?;
            if closes(may_close, &answer) {
                *group = None;
                return Ok(answer);
            }
            Ok(answer)
        }
    }
}

// A command while a group of these edits is open.
fn obey_in_group<B: Bridge>(
    alloc: Global,
    cache: &mut Cache<B>,
    edits: &mut Edits,
    command: Command,
) -> Result<Answer, Memory>
    ensures step { let old = state_of cache.old in
        Makes (DoesInGroup old edits.old command) old result (state_of cache.new) }
    ensures edits { IfOk result (λ answer. edits.new ≡ edits_after edits.old answer command) }
    ensures untouched { IfOk result (λ answer. KeepsRefused answer cache.old cache.new) }
    ensures few { IfOk result (λ answer. TakesFew answer cache.old.lazy cache.new.lazy) }
    ensures unread { is_load (Ok command) ≡ true → result ≢ Ok Answer.ReadFault }
{
    match command {
        Command::Silent => Ok(Answer::Silent),
        Command::Quit => Ok(Answer::Quit),
        Command::Edit(edit) => hold(alloc, edits, edit),
        Command::Commit => commit(alloc, cache, edits),
        Command::Abandon => done(alloc, None),
        Command::Begin | Command::Target(_) | Command::Support { .. } => {
            refuse(alloc, &Refused::GroupOpen)
        }
        Command::Cost { .. } | Command::Switch { .. } | Command::Attach | Command::Detach => {
            refuse(alloc, &Refused::GroupOpen)
        }
        Command::Optimize(_) | Command::Bridged | Command::Plan | Command::Write => {
            refuse(alloc, &Refused::GroupOpen)
        }
        Command::Load(_) => refuse(alloc, &Refused::GroupOpen),
    }
}

// Whether a command that is accepted closes a group.
fn ends_group(command: &Command) -> bool
    ensures { result ≡ is_end command.now }
{
    matches!(command, Command::Commit | Command::Abandon)
}

// Whether a group is closed, by whether its command ends it and by what that was answered.
fn closes(may_close: bool, answer: &Answer) -> bool
    ensures { result ≡ (may_close && is_printed answer.now) }
{
    may_close && matches!(answer, Answer::Printed(_))
}

// Opens a group at a command that opens one.
fn open_for(alloc: Global, group: &mut Option<Edits>, command: &Command)
    requires { group.old ≡ None }
    ensures { group.new ≡ group_by None (Ok command.now) }
{
    if let Command::Begin = command {
        *group = Some(Edits::new(alloc));
    }
}

// Appends an edit to those that are held.
fn hold(alloc: Global, edits: &mut Edits, edit: Edit) -> Result<Answer, Memory>
    ensures answer { IfOk result (λ answer. answer ≡ is_held) }
    ensures edits { OnOk result (edits.new ≡ edits.old ++ edit ∷ []) }
{
    match edits.push(edit) {
        Ok(()) => held(alloc),
        Err(_) => Err(Memory),
    }
}

// Makes the edits of a group, all or none.
fn commit<B: Bridge>(alloc: Global, cache: &mut Cache<B>, edits: &Edits) -> Result<Answer, Memory>
    ensures step { let old = state_of cache.old in
        Makes (TellsCall group_answer (IsGroupAnswer old edits.now)) old result (state_of cache.new) }
    ensures untouched { IfOk result (λ answer. KeepsRefused answer cache.old cache.new) }
    ensures few { IfOk result (λ answer. TakesFew answer cache.old.lazy cache.new.lazy) }
{
    let made = cache.group(edits.as_slice());
    tell(alloc, made)
}

// What a group of edits was answered.
fn tell(alloc: Global, made: Result<Option<u64>, GroupFault>) -> Result<Answer, Memory>
    ensures { IfOk result (λ answer. answer ≡ group_answer made) }
{
    match made {
        Ok(count) => done(alloc, count),
        Err(fault) => tell_refusal(alloc, group_refusal(fault)),
    }
}
