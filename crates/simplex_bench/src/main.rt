// Solves generated forms on the dense or the sparse board, with an ample allowance of pivots, and
// prints a checksum of the answers. `simplex_bench ROWS COLUMNS SPARSE GREATEST BOARD FORMS` solves
// random forms: one entry in SPARSE isn't 0, and is at most GREATEST in magnitude. `simplex_bench
// KIND ROWS COLUMNS BOARD TIMES` makes the form of a chain of balances, a transport or a blending
// plan and solves it TIMES times.
#![tactic(auto)]

mod answers;
mod draft;
mod draw;
mod fault;
mod forms;
mod models;

use answers::Board;
use fault::BenchFault;
use forms::Size;
use models::Kind;
use std::alloc::Global;
use std::{env, io};

const USAGE: &str = "usage: simplex_bench ROWS COLUMNS SPARSE GREATEST dense|sparse FORMS, or \
simplex_bench chain|transport|blend ROWS COLUMNS dense|sparse TIMES";

fn main(rt: HostRuntime) -> io::Result<()> {
    let mut words = Vec::new(rt.alloc());
    for word in env::args(&rt)? {
        words.push(word)?;
    }
    tell(&rt, told(rt.alloc(), &words))
}

fn tell(rt: &HostRuntime, told: Option<Result<u64, BenchFault>>) -> io::Result<()> {
    match told {
        Some(Ok(sum)) => println!(rt; "{sum}"),
        Some(Err(fault)) => println!(rt; "{fault}"),
        None => println!(rt; "{USAGE}"),
    }
}

fn told(alloc: Global, words: &[String]) -> Option<Result<u64, BenchFault>> {
    match words {
        [_, first, numbers @ ..] => match Kind::named(first.as_str()) {
            Some(kind) => of_model(alloc, kind, numbers),
            None => of_random(alloc, first.as_str(), numbers),
        },
        _ => None,
    }
}

fn of_random(alloc: Global, rows: &str, words: &[String]) -> Option<Result<u64, BenchFault>> {
    match words {
        [columns, sparse, greatest, board, forms] => {
            let size = Size {
                rows: rows.parse().ok()?,
                columns: columns.as_str().parse().ok()?,
                sparse: sparse.as_str().parse().ok()?,
                greatest: greatest.as_str().parse().ok()?,
            };
            let board = Board::named(board.as_str())?;
            let forms = forms.as_str().parse().ok()?;
            Some(answers::checksum(alloc, &size, board, forms))
        }
        _ => None,
    }
}

fn of_model(alloc: Global, kind: Kind, words: &[String]) -> Option<Result<u64, BenchFault>> {
    match words {
        [rows, columns, board, times] => {
            let rows = rows.as_str().parse().ok()?;
            let columns = columns.as_str().parse().ok()?;
            let board = Board::named(board.as_str())?;
            let times = times.as_str().parse().ok()?;
            Some(answers::of_model(alloc, kind, rows, columns, board, times))
        }
        _ => None,
    }
}
