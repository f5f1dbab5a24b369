// A case that is run.
ghost use Rattle.std.specs.Prelude.{◌≡◌, ◌≤◌, All, IsTrue, false, map};
ghost use Rattle.std.specs.FinMap as finite;
ghost use Rattle.bridge_set.specs.Bridges.{families_of, occur_once};
ghost use Rattle.edit_engine.specs.Held.{state_of};

use crate::case::{Call, Case};
use crate::full::Full;
use crate::last::run_last;
use any_bridge::{AnyBridge, all_bridges};
use bridge_face::Bridge;
use edit_engine::Session;
use io_face::{Calls, MemShelf, MemSink, MemSource, NamedFile, NamedFiles, Shelf, SureShelf};
use item_core::Family;
use lazy_bridge::add_bridge;
use lists::Memory;
use loaded_again_laws::written_line;
use moi_run::run;
use std::alloc::Global;
use std::str;
use test_support::Stop;

/// Runs a case, and prints how it ends and what it writes.
pub fn run_case(rt: &HostRuntime, case: &Case) -> Result<(), Stop> {
    let files = files_of(rt.alloc(), case)?;
    match case.failing(Call::Fetch) {
        0 => run_over(rt, case, &mut SureShelf::new(files)),
        call => {
            let mut shelf = MemShelf::new(files, failing(rt.alloc(), call)?);
            run_over(rt, case, &mut shelf)
        }
    }
}

// The files of a model and of a certificate.
fn files_of(alloc: Global, case: &Case) -> Result<NamedFiles, Memory> {
    let mut files = Vec::new(alloc);
    files.push(file(alloc, "m.json", &case.model)?)?;
    files.push(file(alloc, "c.txt", &case.certificate)?)?;
    Ok(NamedFiles::from_vec(files))
}

fn file(alloc: Global, name: &str, bytes: &[u8]) -> Result<NamedFile, Memory> {
    let name = String::from_str(alloc, name)?;
    let bytes = Vec::from_slice(alloc, bytes)?;
    Ok(NamedFile { name, bytes })
}

// The one call of this number fails, or none.
fn failing(alloc: Global, call: u64) -> Result<Calls, Memory> {
    Ok(Calls::from_vec(vec![in alloc; call]?))
}

fn run_over<H: Shelf>(rt: &HostRuntime, case: &Case, shelf: &mut H) -> Result<(), Stop> {
    if case.piece == 0 {
        return Err(Stop);
    }
    let reads = failing(rt.alloc(), case.failing(Call::Read))?;
    let script = Vec::from_slice(rt.alloc(), &case.script)?;
    let mut input = MemSource::new(script, case.piece, reads);
    run_on(rt, case, shelf, &mut input)
}

fn run_on<H: Shelf>(
    rt: &HostRuntime,
    case: &Case,
    shelf: &mut H,
    input: &mut MemSource,
) -> Result<(), Stop>
    requires { 1 ≤ case.now.piece }
{
    if case.boxed {
        return run_boxed(rt, case, shelf, input);
    }
    let bridges = all_bridges(rt.alloc())?;
    run_by(rt, case, shelf, input, bridges)
}

// By boxes, which no function may hand out.
fn run_boxed<H: Shelf>(
    rt: &HostRuntime,
    case: &Case,
    shelf: &mut H,
    input: &mut MemSource,
) -> Result<(), Stop>
    requires { 1 ≤ case.now.piece }
{
    let alloc = rt.alloc();
    let one: Box<dyn Bridge> = Box::new(alloc, AnyBridge::new(alloc, Family::GreaterLess))?;
    let again: Box<dyn Bridge> = Box::new(alloc, AnyBridge::new(alloc, Family::GreaterLess))?;
    let other: Box<dyn Bridge> = Box::new(alloc, AnyBridge::new(alloc, Family::NonposVar))?;
    run_by_each(rt, case, shelf, input, one, again, other)
}

// By each of the bridges, but one bridge of a family.
fn run_by_each<H: Shelf, B: Bridge>(
    rt: &HostRuntime,
    case: &Case,
    shelf: &mut H,
    input: &mut MemSource,
    one: B,
    again: B,
    other: B,
) -> Result<(), Stop>
    requires { 1 ≤ case.now.piece }
{
    show_box(rt, &one)?;
    show_box(rt, &other)?;
    let mut bridges = Vec::new(rt.alloc());
    add_bridge(&mut bridges, one)?;
    add_bridge(&mut bridges, again)?;
    add_bridge(&mut bridges, other)?;
    run_by(rt, case, shelf, input, bridges)
}

// Of which family a bridge is, and how many calls it has had.
fn show_box<B: Bridge>(rt: &HostRuntime, bridge: &B) -> Result<(), Stop> {
    let (family, turns) = (bridge.family(), bridge.turns());
    Ok(rt.print(format_args!("{family:?} after {turns} calls, "))?)
}

// By a new session with these bridges.
fn run_by<H: Shelf, B: Bridge>(
    rt: &HostRuntime,
    case: &Case,
    shelf: &mut H,
    input: &mut MemSource,
    bridges: Vec<B>,
) -> Result<(), Stop>
    requires piece { 1 ≤ case.now.piece }
    requires once { IsTrue (occur_once (families_of (map B.state bridges.items))) }
    requires kept { All (λ s. s.kept ≡ finite.empty) (map B.state bridges.items) }
{
    let mut session = Session::new(rt.alloc(), bridges);
    let ran = run_with(rt, case, shelf, input, &mut session);
    drop(session);
    ran
}

// The session is lent, so that no way out frees it.
fn run_with<H: Shelf, B: Bridge>(
    rt: &HostRuntime,
    case: &Case,
    shelf: &mut H,
    input: &mut MemSource,
    session: &mut Session<B>,
) -> Result<(), Stop>
    requires piece { 1 ≤ case.now.piece }
    requires detached { (state_of session.old).attached ≡ false }
{
    match &case.last {
        Some(last) => run_last(rt, &case.script, last.as_bytes(), shelf, session),
        None => run_session(rt, case, shelf, input, session),
    }
}

// The session is lent, so that no way out frees it.
fn run_session<H: Shelf, B: Bridge>(
    rt: &HostRuntime,
    case: &Case,
    shelf: &mut H,
    input: &mut MemSource,
    session: &mut Session<B>,
) -> Result<(), Stop>
    requires piece { 1 ≤ case.now.piece }
    requires detached { (state_of session.old).attached ≡ false }
{
    if case.full {
        return run_full(rt, case, shelf, input, session);
    }
    let writes = failing(rt.alloc(), case.failing(Call::Write))?;
    let mut output = MemSink::new(rt.alloc(), case.piece, writes);
    let status = run(rt.alloc(), &case.words, shelf, input, &mut output, session);
    tell(rt, status.number(), output.written())?;
    if case.left {
        tell_left(rt, session)
    } else {
        Ok(())
    }
}

// Into a sink without memory.
fn run_full<H: Shelf, B: Bridge>(
    rt: &HostRuntime,
    case: &Case,
    shelf: &mut H,
    input: &mut MemSource,
    session: &mut Session<B>,
) -> Result<(), Stop>
    requires { (state_of session.old).attached ≡ false }
{
    let mut output = Full;
    let status = run(rt.alloc(), &case.words, shelf, input, &mut output, session);
    tell(rt, status.number(), b"")
}

fn tell(rt: &HostRuntime, status: u8, written: &[u8]) -> Result<(), Stop> {
    rt.println(format_args!("status {status}"))?;
    let text = str::from_utf8(written)?;
    if text.is_empty() || text.ends_with('\n') {
        rt.print(text)?;
    } else {
        rt.println(text)?;
    }
    Ok(())
}

// What the session is left with.
fn tell_left<B: Bridge>(rt: &HostRuntime, session: &Session<B>) -> Result<(), Stop> {
    let cache = session.cache();
    let model = written_line(rt.alloc(), cache.model())?;
    rt.println(format_args!("attached {}", cache.attached()))?;
    rt.print(str::from_utf8(model.as_slice())?)?;
    Ok(())
}
