// A line of the cases.
use crate::case::{Call, Case, Part};
use crate::running::run_case;
use test_support::Stop;

/// Does what a line says.
pub fn step(rt: &HostRuntime, case: &mut Case, line: &str) -> Result<(), Stop> {
    if let Some(text) = line.strip_prefix('|') {
        put(case.text(), text, "\n")
    } else if let Some(text) = line.strip_prefix('>') {
        put(case.text(), text, "")
    } else {
        match line.split_once(' ') {
            Some((word, rest)) => told(rt, case, word, rest),
            None => named(rt, case, line),
        }
    }
}

fn put(text: &mut Vec<u8>, line: &str, end: &str) -> Result<(), Stop> {
    text.extend_from_slice(line.as_bytes())?;
    text.extend_from_slice(end.as_bytes())?;
    Ok(())
}

// A line of one word.
fn named(rt: &HostRuntime, case: &mut Case, word: &str) -> Result<(), Stop> {
    match word {
        "model" => case.part = Part::Model,
        "certificate" => case.part = Part::Certificate,
        "script" => case.part = Part::Script,
        "full" => case.full = true,
        "boxed" => case.boxed = true,
        "left" => case.left = true,
        "run" => return run_case(rt, case),
        _ => return Err(Stop),
    }
    Ok(())
}

// A line of a word and something told.
fn told(rt: &HostRuntime, case: &mut Case, word: &str, rest: &str) -> Result<(), Stop> {
    match word {
        "case" => begin(rt, case, rest),
        "words" => put_words(case, rest),
        "piece" => {
            case.piece = rest.parse()?;
            Ok(())
        }
        "failing" => fail(case, rest),
        "rows" => put_rows(case, rest),
        "sets" => put_sets(case, rest),
        "last" => {
            case.last = Some(String::from_str(rt.alloc(), rest)?);
            Ok(())
        }
        _ => Err(Stop),
    }
}

fn begin(rt: &HostRuntime, case: &mut Case, name: &str) -> Result<(), Stop> {
    *case = Case::new(rt.alloc());
    Ok(rt.print(format_args!("# {name}: "))?)
}

fn put_words(case: &mut Case, words: &str) -> Result<(), Stop> {
    let alloc = *case.words.allocator();
    for word in words.split(' ') {
        case.words.push(String::from_str(alloc, word)?)?;
    }
    Ok(())
}

fn put_rows(case: &mut Case, told: &str) -> Result<(), Stop> {
    let alloc = *case.script.allocator();
    let (first, count, terms) = numbers_and_text(told)?;
    for n in 0..count {
        let number = u64::from(first) + u64::from(n);
        let line = format!(in alloc; "row r{number} >= 0 : {terms}\n")?;
        case.script.extend_from_slice(line.as_bytes())?;
    }
    Ok(())
}

fn put_sets(case: &mut Case, told: &str) -> Result<(), Stop> {
    let alloc = *case.script.allocator();
    let (first, count, bound) = numbers_and_text(told)?;
    for n in 0..count {
        let number = u64::from(first) + u64::from(n);
        let line = format!(in alloc; "set r{number} >= {bound}\n")?;
        case.script.extend_from_slice(line.as_bytes())?;
    }
    Ok(())
}

// The first number, how many there are, and a text.
fn numbers_and_text(told: &str) -> Result<(u32, u32, &str), Stop> {
    let Some((first, rest)) = told.split_once(' ') else {
        return Err(Stop);
    };
    let Some((count, text)) = rest.split_once(' ') else {
        return Err(Stop);
    };
    Ok((first.parse()?, count.parse()?, text))
}

fn fail(case: &mut Case, told: &str) -> Result<(), Stop> {
    let Some((kind, number)) = told.split_once(' ') else {
        return Err(Stop);
    };
    let call = match kind {
        "read" => Call::Read,
        "write" => Call::Write,
        "fetch" => Call::Fetch,
        _ => return Err(Stop),
    };
    case.failing = Some((call, number.parse()?));
    Ok(())
}
