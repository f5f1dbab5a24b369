//! The lines of the cases.
use crate::TestedCommand;
use crate::case::{Call, Case, words_of};
use crate::running::run_case;
use std::alloc::Global;
use std::io;
use test_support::Stop;

/// Runs the cases of standard input for a command with these usual arguments, and prints how each
/// ends and what it writes.
pub fn run_cases<C: TestedCommand>(rt: &HostRuntime, usual: &str) -> io::Result<()> {
    match read_cases::<C>(rt, usual) {
        Ok(()) => Ok(()),
        Err(Stop) => rt.println("stopped"),
    }
}

fn read_cases<C: TestedCommand>(rt: &HostRuntime, usual: &str) -> Result<(), Stop> {
    let mut case = Case::new(rt.alloc(), usual)?;
    read_lines::<C>(rt, usual, &mut case)
}

fn read_lines<C: TestedCommand>(
    rt: &HostRuntime,
    usual: &str,
    case: &mut Case,
) -> Result<(), Stop> {
    for line in rt.lines(rt.alloc()) {
        let line = line?;
        step::<C>(rt, usual, case, line.as_str())?;
    }
    Ok(())
}

// Does what a line says.
fn step<C: TestedCommand>(
    rt: &HostRuntime,
    usual: &str,
    case: &mut Case,
    line: &str,
) -> Result<(), Stop> {
    if line == "run" {
        return run_case::<C>(rt, case);
    }
    if let Some(name) = line.strip_prefix("case ") {
        return begin(rt, usual, case, name);
    }
    describe(rt.alloc(), case, line)
}

fn begin(rt: &HostRuntime, usual: &str, case: &mut Case, name: &str) -> Result<(), Stop> {
    *case = Case::new(rt.alloc(), usual)?;
    Ok(rt.print(format_args!("# {name}: "))?)
}

// A line that says what the case is.
fn describe(alloc: Global, case: &mut Case, line: &str) -> Result<(), Stop> {
    if let Some(text) = line.strip_prefix('|') {
        put(&mut case.model, text)
    } else if let Some(text) = line.strip_prefix('>') {
        put(&mut case.maps, text)
    } else {
        match line.split_once(' ') {
            Some((word, rest)) => set(alloc, case, word, rest),
            None => mark(alloc, case, line),
        }
    }
}

fn put(file: &mut Vec<u8>, line: &str) -> Result<(), Stop> {
    file.extend_from_slice(line.as_bytes())?;
    file.extend_from_slice(b"\n")?;
    Ok(())
}

// A line of one word.
fn mark(alloc: Global, case: &mut Case, word: &str) -> Result<(), Stop> {
    match word {
        "words" => case.words = Vec::new(alloc),
        "missing" => case.is_missing = true,
        "without_maps" => case.is_without_maps = true,
        "unended" => {
            let _last = case.maps.pop();
        }
        "bare" => case.is_bare = true,
        _ => return Err(Stop),
    }
    Ok(())
}

// A line of a word and what it is set to.
fn set(alloc: Global, case: &mut Case, word: &str, rest: &str) -> Result<(), Stop> {
    match word {
        "words" => case.words = words_of(alloc, rest)?,
        "each" => put_each(alloc, &mut case.model, rest)?,
        "unit" => put_unit(&mut case.maps, rest.parse()?)?,
        "piece" => case.piece = rest.parse()?,
        "failing" => case.failing = Some(call_in(rest)?),
        _ => return Err(Stop),
    }
    Ok(())
}

// A text, as often as the number before it says, separated by commas.
fn put_each(alloc: Global, file: &mut Vec<u8>, rest: &str) -> Result<(), Stop> {
    let Some((count, text)) = rest.split_once(' ') else {
        return Err(Stop);
    };
    let count: u32 = count.parse()?;
    for i in 0..count {
        if i > 0 {
            file.push(b',')?;
        }
        put_numbered(alloc, file, text, i + 1)?;
    }
    Ok(())
}

// A text with a number in place of each `#`.
fn put_numbered(alloc: Global, file: &mut Vec<u8>, text: &str, number: u32) -> Result<(), Stop> {
    let number = format!(in alloc; "{number}")?;
    for (i, part) in text.split('#').enumerate() {
        if i > 0 {
            file.extend_from_slice(number.as_bytes())?;
        }
        file.extend_from_slice(part.as_bytes())?;
    }
    Ok(())
}

// The lines of the unit matrix of this many rows.
fn put_unit(file: &mut Vec<u8>, size: usize) -> Result<(), Stop> {
    for i in 0..size {
        put_unit_row(file, size, i)?;
    }
    Ok(())
}

fn put_unit_row(file: &mut Vec<u8>, size: usize, i: usize) -> Result<(), Stop> {
    for j in 0..size {
        if j > 0 {
            file.push(b' ')?;
        }
        file.push(if i == j { b'1' } else { b'0' })?;
    }
    file.push(b'\n')?;
    Ok(())
}

// The call that fails, as in `fetch 2`.
fn call_in(text: &str) -> Result<(Call, u64), Stop> {
    let Some((kind, number)) = text.split_once(' ') else {
        return Err(Stop);
    };
    let call = match kind {
        "fetch" => Call::Fetch,
        "write" => Call::Write,
        _ => return Err(Stop),
    };
    Ok((call, number.parse()?))
}
