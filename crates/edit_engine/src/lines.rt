//! What lines do to a cache: for each a step of the script machine.
ghost use Rattle.std.specs.Prelude.{◌≡◌, ◌≢◌, ◌≤◌, IfOk, IsTrue, None, Ok, OnErr, OnOk, false, true};
ghost use Rattle.std.specs.List.{list_all};
ghost use Rattle.bridge_graph.specs.Hypergraph.{is_edge_cost};
ghost use Rattle.cache_layer.specs.Answers.{Becomes, IsAttached, IsEdited};
ghost use Rattle.cache_layer.specs.Cached.{state_of};
ghost use Rattle.cache_layer.specs.CacheState.{with_table};
ghost use Rattle.lazy_bridge.specs.Few.{ChangesFew};
ghost use Rattle.lazy_bridge.specs.Native.{supports_native};
ghost use Rattle.edit_engine.specs.Counts.{TakesFew};
ghost use Rattle.edit_engine.specs.Held.{KeepsRefused};
ghost use Rattle.edit_engine.specs.Lines.{asks_by, is_load, line_asks, says_load};
ghost use Rattle.edit_engine.specs.Script.{AnswersPlan, Detaches, DoesAlone, DoesLine, Makes, Says, ShowsLeaves, TellsCall, attach_answer, edit_answer, file_line, group_after, machine_by};
ghost use Rattle.file_answers.specs.FileAnswers.{refused};
ghost use Rattle.io_face.specs.Fault.{HasFaulted};
ghost use Rattle.io_face.specs.Shelf.{AsksFor};
ghost use Rattle.io_face.specs.Told.{Told, told_by};
ghost use Rattle.report_core.specs.declared.answer.Answer.TheVariants.{Printed};
ghost use Rattle.script_core.specs.Line.{line_said};

use crate::groups::obey;
use crate::held::held;
use crate::loading::load;
use crate::optimizing::optimize;
use crate::plan::choices_of;
use crate::refusals::{attach_refusal, edit_refusal};
use crate::tables::{costing, supporting, switched, targeted};
use bridge_face::Bridge;
use cache_layer::{AttachFault, Cache, EditFault, NotAttached};
use file_answers::tell_refusal;
use io_face::Shelf;
use item_core::Table;
use lists::Memory;
use mof_read::Edits;
use name_index::Text;
use report_core::{Answer, Place, Refused, done, plan, refusal};
use script_core::{Command, LineFault, parse_line};
use std::alloc::Global;
use user_model::Edit;

// Answers a line, with an allowance of pivots for an optimise that names none, and a shelf for a
// line `load`.
pub(crate) fn step<B: Bridge, H: Shelf>(
    alloc: Global,
    cache: &mut Cache<B>,
    group: &mut Option<Edits>,
    pivots: u32,
    shelf: &mut H,
    line: &[u8],
) -> Result<Answer, Memory>
    ensures step { let old = state_of cache.old in
        let told = told_by (H.files shelf.old) (H.sure shelf.old) in
        Makes (DoesLine (machine_by old group.old pivots told) line.now) old result
        (state_of cache.new) }
    ensures group { IfOk result (λ answer.
        group.new ≡ group_after group.old (line_said line.now) answer) }
    ensures untouched { IfOk result (λ answer.
        KeepsRefused answer cache.old cache.new) }
    ensures few { IfOk result (λ answer.
        TakesFew answer cache.old.lazy cache.new.lazy) }
    ensures files { H.files shelf.new ≡ H.files shelf.old }
    ensures sure { H.sure shelf.new ≡ H.sure shelf.old }
    ensures count { H.faults shelf.old ≤ H.faults shelf.new }
    ensures cause { result ≡ Ok Answer.ReadFault
        → HasFaulted (H.faults shelf.old) (H.faults shelf.new) }
    ensures sound { result ≢ Ok Answer.ReadFault → H.faults shelf.new ≡ H.faults shelf.old }
    ensures asks { OnOk result (AsksFor (H.asked shelf.old) (H.asked shelf.new)
        (line_asks (machine_by (state_of cache.old) group.old pivots
        (told_by (H.files shelf.old) (H.sure shelf.old))) line.now)) }
    ensures unasked { says_load line.now ≡ false → shelf.new ≡ shelf.old }
{
    match parse_line(alloc, line) {
        Ok(command) => obey(alloc, cache, group, pivots, shelf, command),
        Err(LineFault::BadLine) => refuse(alloc, &Refused::BadLine),
        Err(LineFault::Overflow) => refuse(alloc, &Refused::Overflow { place: Place::Line }),
        Err(LineFault::Memory) => Err(Memory),
    }
}

// A command while no group is open. One that opens a group changes nothing else.
pub(crate) fn obey_alone<B: Bridge, H: Shelf>(
    alloc: Global,
    cache: &mut Cache<B>,
    pivots: u32,
    shelf: &mut H,
    command: Command,
) -> Result<Answer, Memory>
    ensures step { let old = state_of cache.old in
        let told = told_by (H.files shelf.old) (H.sure shelf.old) in
        Makes (DoesAlone (machine_by old None pivots told) command) old result
        (state_of cache.new) }
    ensures untouched { IfOk result (λ answer.
        KeepsRefused answer cache.old cache.new) }
    ensures few { IfOk result (λ answer.
        TakesFew answer cache.old.lazy cache.new.lazy) }
    ensures files { H.files shelf.new ≡ H.files shelf.old }
    ensures sure { H.sure shelf.new ≡ H.sure shelf.old }
    ensures count { H.faults shelf.old ≤ H.faults shelf.new }
    ensures cause { is_load (Ok command) ≡ true → result ≡ Ok Answer.ReadFault
        → HasFaulted (H.faults shelf.old) (H.faults shelf.new) }
    ensures sound { is_load (Ok command) ≡ true → result ≢ Ok Answer.ReadFault
        → H.faults shelf.new ≡ H.faults shelf.old }
    ensures asks { is_load (Ok command) ≡ true
        → OnOk result (AsksFor (H.asked shelf.old) (H.asked shelf.new)
        (asks_by None (state_of cache.old) (Ok command))) }
    ensures unasked { is_load (Ok command) ≡ false → shelf.new ≡ shelf.old }
{
    match command {
        Command::Load(name) => load(alloc, cache, shelf, &name),
        other => obey_without_file(alloc, cache, pivots, other),
    }
}

// A command other than `load`: its step is the same whatever the shelf tells.
fn obey_without_file<B: Bridge>(
    alloc: Global,
    cache: &mut Cache<B>,
    pivots: u32,
    command: Command,
) -> Result<Answer, Memory>
    requires { is_load (Ok command) ≡ false }
    ensures step { let old = state_of cache.old in (told : Told)
        → Makes (DoesAlone (machine_by old None pivots told) command) old result
        (state_of cache.new) }
    ensures untouched { IfOk result (λ answer.
        KeepsRefused answer cache.old cache.new) }
    ensures few { IfOk result (λ answer.
        TakesFew answer cache.old.lazy cache.new.lazy) }
{
    match command {
        Command::Silent => Ok(Answer::Silent),
        Command::Quit => Ok(Answer::Quit),
        Command::Edit(edit) => make(alloc, cache, edit),
        Command::Begin => done(alloc, None),
        Command::Commit | Command::Abandon => refuse(alloc, &Refused::NoGroup),
        Command::Target(target) => {
            let table = targeted(target, cache.lazy().table());
            set_table(alloc, cache, table)
        }
        Command::Support { kind, value } => {
            let table = supporting(kind, value, cache.lazy().table());
            set_table(alloc, cache, table)
        }
        Command::Cost { edge, cost } => {
            let table = costing(edge, cost, cache.lazy().table());
            set_table(alloc, cache, table)
        }
        Command::Switch { family, value } => {
            let table = switched(family, value, cache.lazy().table());
            set_table(alloc, cache, table)
        }
        Command::Attach => attach(alloc, cache),
        Command::Detach => detach(alloc, cache),
        Command::Bridged => bridged(alloc, cache),
        Command::Plan => show_plan(alloc, cache),
        Command::Optimize(own) => optimize(alloc, cache, u64::from(own.unwrap_or(pivots))),
        Command::Write => write(alloc, cache),
        Command::Load(_) => unreachable!(),
    }
}

/// A refusal, as it is printed.
pub(crate) fn refuse(alloc: Global, fault: &Refused) -> Result<Answer, Memory>
    ensures { IfOk result (λ answer. answer ≡ refused fault.now) }
{
    refusal(alloc, fault)
}

// Makes an edit.
fn make<B: Bridge>(alloc: Global, cache: &mut Cache<B>, edit: Edit) -> Result<Answer, Memory>
    ensures step { let old = state_of cache.old in
        Makes (TellsCall edit_answer (IsEdited old edit)) old result (state_of cache.new) }
    ensures untouched { IfOk result (λ answer.
        KeepsRefused answer cache.old cache.new) }
    ensures few { IfOk result (λ answer.
        TakesFew answer cache.old.lazy cache.new.lazy) }
{
    let made = cache.edit(edit);
    tell(alloc, made)
}

// Bridges by another table.
fn set_table<B: Bridge>(alloc: Global, cache: &mut Cache<B>, table: Table) -> Result<Answer, Memory>
    requires costs { IsTrue (list_all is_edge_cost table.cost) }
    requires native { IsTrue (supports_native table) }
    ensures step { let old = state_of cache.old in
        Makes (TellsCall edit_answer (Becomes old (with_table old table))) old result
        (state_of cache.new) }
    ensures untouched { IfOk result (λ answer.
        KeepsRefused answer cache.old cache.new) }
    ensures few { IfOk result (λ answer.
        TakesFew answer cache.old.lazy cache.new.lazy) }
{
    let made = cache.table(table);
    tell(alloc, made)
}

// What an edit or another table was answered.
fn tell(alloc: Global, made: Result<Option<u64>, EditFault>) -> Result<Answer, Memory>
    ensures { IfOk result (λ answer. answer ≡ edit_answer made) }
{
    match made {
        Ok(count) => done(alloc, count),
        Err(fault) => tell_refusal(alloc, edit_refusal(fault)),
    }
}

fn attach<B: Bridge>(alloc: Global, cache: &mut Cache<B>) -> Result<Answer, Memory>
    ensures step { let old = state_of cache.old in
        Makes (TellsCall attach_answer (IsAttached old)) old result (state_of cache.new) }
    ensures untouched { IfOk result (λ answer.
        KeepsRefused answer cache.old cache.new) }
    ensures few { IfOk result (λ answer.
        TakesFew answer cache.old.lazy cache.new.lazy) }
{
    let made = cache.attach();
    tell_attached(alloc, made)
}

// What attaching a solver was answered.
fn tell_attached(alloc: Global, made: Result<u64, AttachFault>) -> Result<Answer, Memory>
    ensures { IfOk result (λ answer. answer ≡ attach_answer made) }
{
    match made {
        Ok(count) => done(alloc, Some(count)),
        Err(fault) => tell_refusal(alloc, attach_refusal(fault)),
    }
}

fn detach<B: Bridge>(alloc: Global, cache: &mut Cache<B>) -> Result<Answer, Memory>
    ensures step { let old = state_of cache.old in
        Makes (Detaches old.attached old) old result (state_of cache.new) }
    ensures untouched { IfOk result (λ answer.
        KeepsRefused answer cache.old cache.new) }
    ensures few { IfOk result (λ answer.
        TakesFew answer cache.old.lazy cache.new.lazy) }
{
    match cache.detach() {
        Ok(()) => done(alloc, None),
        Err(NotAttached) => refuse(alloc, &Refused::NotAttached),
    }
}

// What an attached solver holds.
fn bridged<B: Bridge>(alloc: Global, cache: &Cache<B>) -> Result<Answer, Memory>
    ensures { let state = state_of cache.now in
        Makes (ShowsLeaves state.attached state) state result state }
{
    if !cache.attached() {
        return refuse(alloc, &Refused::NotAttached);
    }
    let text = held(alloc, cache.lazy(), cache.model())?;
    Ok(Answer::Printed(text))
}

// How each kind is bridged.
fn show_plan<B: Bridge>(alloc: Global, cache: &Cache<B>) -> Result<Answer, Memory>
    ensures { let state = state_of cache.now in Makes (AnswersPlan state) state result state }
{
    let choices = choices_of(cache.lazy());
    let text = plan(alloc, &choices)?;
    Ok(Answer::Printed(text))
}

// The user's model as a file.
fn write<B: Bridge>(alloc: Global, cache: &Cache<B>) -> Result<Answer, Memory>
    ensures { let state = state_of cache.now in
        Makes (Says state (Printed (file_line state.model))) state result state }
{
    let mut text = mof_write::write(alloc, cache.model())?.into_vec();
    text.push(b'\n')?;
    Ok(Answer::Printed(Text::from_vec(text)))
}

// Sets the table, where no solver is attached.
pub(crate) fn preset<B: Bridge>(cache: &mut Cache<B>, table: Table) -> Result<(), Memory>
    requires detached { cache.old.attached ≡ false }
    requires costs { IsTrue (list_all is_edge_cost table.cost) }
    requires native { IsTrue (supports_native table) }
    ensures ok { OnOk result (state_of cache.new ≡ with_table (state_of cache.old) table) }
    ensures err { OnErr result (state_of cache.new ≡ state_of cache.old) }
    ensures few { OnOk result (ChangesFew cache.old.lazy 0 cache.new.lazy) }
{
    match cache.table(table) {
        Ok(_) => Ok(()),
        Err(_) => Err(Memory),
    }
}
