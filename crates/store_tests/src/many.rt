// Steps of many edits, up to the limits of a model. Variables are called x0, x1 and on, and rows
// r0, r1 and on. Refusals are printed.
//
//     many groups FIRST COUNT SIZE      groups of variables, whose names go on from the first
//                                       number
//     many rows FIRST COUNT COMPONENTS  rows of components that are each x0
//     many coefs FIRST COUNT 1          the coefficients of COUNT variables in the first
//                                       component of r0
//     many twins 0 1 COUNT              a group of COUNT variables, and of one more that is x0
//                                       again
use crate::edits::read;
use crate::session::make_for_good;
use model_store::UserModel;
use std::alloc::{AllocError, Global};
use std::str::SplitWhitespace;
use test_support::Stop;

#[derive(Clone, Copy)]
enum What {
    Groups,
    Rows,
    Coefs,
    Twins,
}

#[derive(Clone, Copy)]
struct Many {
    what: What,
    first: u32,
    count: u32,
    size: u32,
}

impl What {
    fn named(word: &str) -> Option<What> {
        match word {
            "groups" => Some(What::Groups),
            "rows" => Some(What::Rows),
            "coefs" => Some(What::Coefs),
            "twins" => Some(What::Twins),
            _ => None,
        }
    }
}

pub fn step(rt: &HostRuntime, model: &mut UserModel, text: &str) -> Result<(), Stop> {
    match many_of(text) {
        Some(many) => make_all(rt, model, many),
        None => Err(Stop),
    }
}

fn many_of(text: &str) -> Option<Many> {
    let mut words = text.split_whitespace();
    let what = What::named(words.next()?)?;
    let first = number(&mut words)?;
    let count = number(&mut words)?;
    let size = number(&mut words)?;
    Some(Many {
        what,
        first,
        count,
        size,
    })
}

fn number(words: &mut SplitWhitespace<'_>) -> Option<u32> {
    words.next()?.parse().ok()
}

fn make_all(rt: &HostRuntime, model: &mut UserModel, many: Many) -> Result<(), Stop> {
    let step = match many.what {
        What::Groups => many.size,
        _ => 1,
    };
    let mut next = many.first;
    for _ in 0..many.count {
        let line = line_of(rt.alloc(), many.what, next, many.size)?;
        make(rt, model, line.as_str())?;
        next = next.saturating_add(step);
    }
    Ok(())
}

fn make(rt: &HostRuntime, model: &mut UserModel, line: &str) -> Result<(), Stop> {
    match make_for_good(model, read(rt.alloc(), line)?) {
        Ok(()) => Ok(()),
        Err(fault) => Ok(println!(rt; "{fault}")?),
    }
}

fn line_of(alloc: Global, what: What, number: u32, size: u32) -> Result<String, AllocError> {
    let mut line = String::new(alloc);
    put(&mut line, what, number, size)?;
    Ok(line)
}

fn put(line: &mut String, what: What, number: u32, size: u32) -> Result<(), AllocError> {
    match what {
        What::Groups => put_group(line, number, size),
        What::Rows => put_row(line, number, size),
        What::Coefs => write!(line, "vcoef r0 1 x{number} 1"),
        What::Twins => {
            put_group(line, number, size)?;
            line.push_str(" x0")
        }
    }
}

fn put_group(line: &mut String, first: u32, size: u32) -> Result<(), AllocError> {
    line.push_str("vars nonneg")?;
    for place in 0..size {
        write!(line, " x{}", first.saturating_add(place))?;
    }
    Ok(())
}

fn put_row(line: &mut String, number: u32, components: u32) -> Result<(), AllocError> {
    write!(line, "vrow r{number} zeros : 1*x0")?;
    for _ in 1..components {
        line.push_str(" ; 1*x0")?;
    }
    Ok(())
}
