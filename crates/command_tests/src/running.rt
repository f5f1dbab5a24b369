//! A case that is run.
ghost use Rattle.std.specs.Prelude.{◌≡◌, All, IfOk, IsTrue, map};
ghost use Rattle.std.specs.FinMap as finite;
ghost use Rattle.any_bridge.specs.States.{state_of_any};
ghost use Rattle.bridge_set.specs.Bridges.{families_of, occur_once};

use crate::TestedCommand;
use crate::case::{Call, Case};
use any_bridge::{AnyBridge, all_bridges};
use io_face::{Calls, MemShelf, MemSink, NamedFile, NamedFiles};
use lists::Memory;
use std::alloc::Global;
use std::str;
use test_support::Stop;

/// Runs a case, and prints how it ends and what it writes.
pub(crate) fn run_case<C: TestedCommand>(rt: &HostRuntime, case: &Case) -> Result<(), Stop> {
    let fetches = failing(rt.alloc(), case.failing(Call::Fetch))?;
    let mut shelf = MemShelf::new(files_of(rt.alloc(), case)?, fetches);
    run_over::<C>(rt, case, &mut shelf)
}

// The shelf and the sink are lent, so that each is freed in one place.
fn run_over<C: TestedCommand>(
    rt: &HostRuntime,
    case: &Case,
    shelf: &mut MemShelf,
) -> Result<(), Stop> {
    if case.piece == 0 {
        return Err(Stop);
    }
    let writes = failing(rt.alloc(), case.failing(Call::Write))?;
    let mut output = MemSink::new(rt.alloc(), case.piece, writes);
    run_into::<C>(rt, case, shelf, &mut output)
}

fn run_into<C: TestedCommand>(
    rt: &HostRuntime,
    case: &Case,
    shelf: &mut MemShelf,
    output: &mut MemSink,
) -> Result<(), Stop> {
    let bridges = bridges_for(rt.alloc(), case)?;
    let status = C::run(rt.alloc(), &case.words, shelf, output, bridges);
    tell(rt, status.number(), output.written())
}

// A bridge of each family, or none.
fn bridges_for(alloc: Global, case: &Case) -> Result<Vec<AnyBridge>, Memory>
    ensures once { IfOk result (λ bridges.
        IsTrue (occur_once (families_of (map state_of_any bridges.items)))) }
    ensures kept { IfOk result (λ bridges.
        All (λ s. s.kept ≡ finite.empty) (map state_of_any bridges.items)) }
{
    if case.is_bare {
        Ok(Vec::new(alloc))
    } else {
        all_bridges(alloc)
    }
}

// The files of the model and of the maps, unless they are missing.
fn files_of(alloc: Global, case: &Case) -> Result<NamedFiles, Memory> {
    let mut files = Vec::new(alloc);
    if !case.is_missing {
        files.push(file_of(alloc, "m.json", &case.model)?)?;
    }
    if !case.is_without_maps {
        files.push(file_of(alloc, "maps.txt", &case.maps)?)?;
    }
    Ok(NamedFiles::from_vec(files))
}

fn file_of(alloc: Global, name: &str, bytes: &[u8]) -> Result<NamedFile, Memory> {
    Ok(NamedFile {
        name: String::from_str(alloc, name)?,
        bytes: Vec::from_slice(alloc, bytes)?,
    })
}

// The one call of this number fails, or none.
fn failing(alloc: Global, call: u64) -> Result<Calls, Memory> {
    Ok(Calls::from_vec(vec![in alloc; call]?))
}

fn tell(rt: &HostRuntime, status: u8, written: &[u8]) -> Result<(), Stop> {
    rt.println(format_args!("status {status}"))?;
    let text = str::from_utf8(written)?;
    if text.is_empty() || text.ends_with('\n') {
        rt.print(text)?;
    } else {
        rt.println(text)?;
    }
    Ok(())
}
