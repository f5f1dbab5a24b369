//! Reads a file several times, as a JSON tree alone or as the edits that make its model, and prints
//! how many bytes it has and how often it was read: `mof_bench FILE tree|edits TIMES`.
#![tactic(auto)]

use io_face::{Files, Shelf};
use serde_json::Value;
use std::alloc::Global;
use std::{env, io};

/// What is read of a file.
#[derive(Clone, Copy)]
enum Reading {
    Tree,
    Edits,
}

impl Reading {
    fn named(word: &str) -> Option<Reading> {
        match word {
            "tree" => Some(Reading::Tree),
            "edits" => Some(Reading::Edits),
            _ => None,
        }
    }

    /// Whether the text could be read.
    fn reads(self, alloc: Global, text: &[u8]) -> bool {
        match self {
            Reading::Tree => Value::from_slice(alloc, text).is_ok(),
            Reading::Edits => mof_read::read(alloc, text).is_ok(),
        }
    }
}

/// How many times the text could be read.
fn tally(alloc: Global, reading: Reading, text: &[u8], times: u32) -> u32 {
    let mut read = 0;
    for _ in 0..times {
        if reading.reads(alloc, text) && read < times {
            read += 1;
        }
    }
    read
}

fn main(rt: HostRuntime) -> io::Result<()> {
    let mut words = env::args(&rt)?;
    words.next();
    let file = words.next();
    let reading = words.next().and_then(|word| Reading::named(word.as_str()));
    let times = words.next().and_then(|word| word.as_str().parse().ok());
    let (Some(file), Some(reading), Some(times)) = (file, reading, times) else {
        return println!(rt; "usage: mof_bench FILE tree|edits TIMES");
    };
    let alloc = rt.alloc();
    let mut text = Vec::new(alloc);
    if Files::new(&rt).fetch(file.as_str(), &mut text).is_err() {
        return println!(rt; "there is no such file");
    }
    let read = tally(alloc, reading, &text, times);
    println!(rt; "{} bytes, read {read} times", text.len())
}
