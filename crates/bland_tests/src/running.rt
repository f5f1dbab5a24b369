// A case that is run.
use crate::case::{Call, Case};
use bland_run::run;
use io_face::{Calls, MemSink, MemSource};
use lists::Memory;
use std::alloc::Global;
use std::str;
use test_support::Stop;

/// Runs a case, and prints how it ends and what it writes.
pub fn run_case(rt: &HostRuntime, case: &Case) -> Result<(), Stop> {
    if case.piece == 0 {
        return Err(Stop);
    }
    let alloc = rt.alloc();
    let reads = failing(alloc, case.failing(Call::Read))?;
    let writes = failing(alloc, case.failing(Call::Write))?;
    let bytes = Vec::from_slice(alloc, &case.input)?;
    let mut input = MemSource::new(bytes, case.piece, reads);
    let mut output = MemSink::new(alloc, case.piece, writes);
    let status = run(alloc, &case.words, &mut input, &mut output);
    tell(rt, status.number(), output.written())
}

// The one call of this number fails, or none.
fn failing(alloc: Global, call: u64) -> Result<Calls, Memory> {
    Ok(Calls::from_vec(vec![in alloc; call]?))
}

fn tell(rt: &HostRuntime, status: u8, written: &[u8]) -> Result<(), Stop> {
    rt.println(format_args!("status {status}"))?;
    let text = str::from_utf8(written)?;
    if text.is_empty() || text.ends_with('\n') {
        rt.print(text)?;
    } else {
        rt.println(text)?;
    }
    Ok(())
}
