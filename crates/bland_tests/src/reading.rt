// A line of the cases.
use crate::case::{Call, Case};
use crate::running::run_case;
use test_support::Stop;

/// Does what a line says.
pub fn step(rt: &HostRuntime, case: &mut Case, line: &str) -> Result<(), Stop> {
    if let Some(text) = line.strip_prefix('|') {
        put(case, text, "\n")
    } else if let Some(text) = line.strip_prefix('>') {
        put(case, text, "")
    } else if line == "run" {
        run_case(rt, case)
    } else {
        match line.split_once(' ') {
            Some((word, rest)) => told(rt, case, word, rest),
            None => Err(Stop),
        }
    }
}

fn put(case: &mut Case, line: &str, end: &str) -> Result<(), Stop> {
    case.input.extend_from_slice(line.as_bytes())?;
    case.input.extend_from_slice(end.as_bytes())?;
    Ok(())
}

// A line of a word and something told.
fn told(rt: &HostRuntime, case: &mut Case, word: &str, rest: &str) -> Result<(), Stop> {
    match word {
        "case" => begin(rt, case, rest),
        "words" => put_words(case, rest),
        "zeros" => put_zeros(case, rest.parse()?),
        "piece" => {
            case.piece = rest.parse()?;
            Ok(())
        }
        "failing" => fail(case, rest),
        _ => Err(Stop),
    }
}

fn begin(rt: &HostRuntime, case: &mut Case, name: &str) -> Result<(), Stop> {
    *case = Case::new(rt.alloc());
    Ok(rt.print(format_args!("# {name}: "))?)
}

fn put_words(case: &mut Case, words: &str) -> Result<(), Stop> {
    let alloc = *case.words.allocator();
    for word in words.split(' ') {
        case.words.push(String::from_str(alloc, word)?)?;
    }
    Ok(())
}

fn put_zeros(case: &mut Case, count: u32) -> Result<(), Stop> {
    for _ in 0..count {
        case.input.push(b'0')?;
    }
    Ok(())
}

fn fail(case: &mut Case, told: &str) -> Result<(), Stop> {
    let Some((kind, number)) = told.split_once(' ') else {
        return Err(Stop);
    };
    let call = match kind {
        "read" => Call::Read,
        "write" => Call::Write,
        _ => return Err(Stop),
    };
    case.failing = Some((call, number.parse()?));
    Ok(())
}
