// What the last line of a script does to the solver's model.
use address_map::{Address, EntriesLeft};
use bridge_face::Bridge;
use edit_engine::{Answer, Session};
use io_face::Shelf;
use std::alloc::Global;
use std::str;
use test_support::Stop;

// A leaf's address, with the index that it has in the solver's model.
type Leaf = (Address, usize);

#[derive(Drop)]
struct Indices {
    vars: Vec<Leaf>,
    rows: Vec<Leaf>,
}

/// Has a session make the lines of a script and then a last one, and prints what that is answered,
/// how many calls of the solver's model it takes, of how many that all lines took, how many turns of
/// the bridges, and how many leaves keep their index.
pub fn run_last<H: Shelf, B: Bridge>(
    rt: &HostRuntime,
    script: &[u8],
    last: &[u8],
    shelf: &mut H,
    session: &mut Session<B>,
) -> Result<(), Stop> {
    for line in script.split(|byte| *byte == b'\n') {
        drop(session.line(line, shelf));
    }
    let before = indices_in(rt.alloc(), session)?;
    let told = make_last(rt, last, shelf, session, &before);
    drop(before);
    told
}

// Makes the last line. The indices before it are lent, so that no way out frees them.
fn make_last<H: Shelf, B: Bridge>(
    rt: &HostRuntime,
    last: &[u8],
    shelf: &mut H,
    session: &mut Session<B>,
    before: &Indices,
) -> Result<(), Stop> {
    let (calls, turns) = (calls_in(session), turns_in(session));
    let answer = session.line(last, shelf);
    let told = tell_answer(rt, &answer);
    drop(answer);
    told?;
    let all = calls_in(session);
    rt.println(format_args!("calls {} of {all}", all.saturating_sub(calls)))?;
    rt.println(format_args!("turns {}", turns_in(session).saturating_sub(turns)))?;
    tell_kept(rt, before, session)
}

fn tell_answer(rt: &HostRuntime, answer: &Answer) -> Result<(), Stop> {
    if let Answer::Printed(text) = answer {
        rt.print(str::from_utf8(text.as_slice())?)?;
    }
    Ok(())
}

fn tell_kept<B: Bridge>(
    rt: &HostRuntime,
    before: &Indices,
    session: &Session<B>,
) -> Result<(), Stop> {
    let map = session.cache().lazy().map();
    let vars = before
        .vars
        .iter()
        .filter(|(at, i)| map.var_index(at) == Some(*i))
        .count();
    let rows = before
        .rows
        .iter()
        .filter(|(at, i)| map.row_index(at) == Some(*i))
        .count();
    rt.println(format_args!("variables {vars} of {}", before.vars.len()))?;
    Ok(rt.println(format_args!("rows {rows} of {}", before.rows.len()))?)
}

fn calls_in<B: Bridge>(session: &Session<B>) -> u64 {
    session.cache().lazy().solver().calls()
}

// The turns that all bridges have taken.
fn turns_in<B: Bridge>(session: &Session<B>) -> u64 {
    let mut turns: u64 = 0;
    for bridge in session.cache().lazy().bridges() {
        turns = turns.saturating_add(bridge.turns());
    }
    turns
}

fn indices_in<B: Bridge>(alloc: Global, session: &Session<B>) -> Result<Indices, Stop> {
    let map = session.cache().lazy().map();
    Ok(Indices {
        vars: copies_of(alloc, map.vars())?,
        rows: copies_of(alloc, map.rows())?,
    })
}

fn copies_of(alloc: Global, leaves: EntriesLeft<'_, usize>) -> Result<Vec<Leaf>, Stop> {
    let mut copies = Vec::new(alloc);
    for leaf in leaves {
        copies.push(*leaf)?;
    }
    Ok(copies)
}
