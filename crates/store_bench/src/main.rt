// Builds a model of two variables, x and y, and ROWS rows `1*x`, each at least 0 (or rows that are
// x and y by turns, each 0, for `delvar`, which deletes x and takes that back), makes ROUNDS edits
// of one kind, and prints how many edits were made and a checksum of what their undos list:
// `store_bench ROWS EDIT ROUNDS`.
#![tactic(auto)]

mod edits;
mod kind;
mod rounds;

use kind::Kind;
use rounds::{Tally, tally_edits};
use std::{env, io};

/// How many rows there are, and what is made how often.
#[derive(Clone, Copy)]
struct Task {
    rows: u32,
    kind: Kind,
    rounds: u32,
}

fn main(rt: HostRuntime) -> io::Result<()> {
    let words = words(&rt)?;
    tell(&rt, task_of(&words))
}

fn words(rt: &HostRuntime) -> io::Result<Vec<String>> {
    Ok(env::args(rt)?.collect(rt.alloc())?)
}

fn tell(rt: &HostRuntime, task: Option<Task>) -> io::Result<()> {
    let Some(task) = task else {
        return println!(rt;
            "usage: store_bench ROWS coef|set|renrow|reset|delvar|delrow|reprow ROUNDS"
        );
    };
    if task.rows == 0 {
        return println!(rt; "there is no row to edit");
    }
    match tally_edits(rt.alloc(), task.rows, task.kind, task.rounds) {
        Ok(Tally { edits, sum }) => println!(rt; "{edits} {sum}"),
        Err(fault) => println!(rt; "{fault}"),
    }
}

fn task_of(words: &[String]) -> Option<Task> {
    match words {
        [_, rows, kind, rounds] => Some(Task {
            rows: rows.as_str().parse().ok()?,
            kind: Kind::named(kind.as_str())?,
            rounds: rounds.as_str().parse().ok()?,
        }),
        _ => None,
    }
}
