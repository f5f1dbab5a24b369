// Runs one operation on fractions many times, and prints a checksum of the results: `ratio_bench
// add small 1000`. Or runs all on many operands, once each: `ratio_bench check small 1 1000`, with
// the seed of the operands and their count.
#![tactic(auto)]

mod draw;
mod operation;

use draw::Size;
use operation::Operation;
use std::{env, io};

fn main(rt: HostRuntime) -> io::Result<()> {
    let mut words = env::args(&rt)?;
    words.next();
    let operation = words.next();
    let size = words.next().and_then(|word| Size::named(word.as_str()));
    let number = words.next().and_then(|word| word.as_str().parse().ok());
    let count = words.next().and_then(|word| word.as_str().parse().ok());
    let (Some(operation), Some(size), Some(number)) = (operation, size, number) else {
        return println!(rt; "{USAGE}");
    };
    match (Operation::named(operation.as_str()), count) {
        (Some(operation), None) => {
            let operands = draw::operands(rt.alloc(), size)?;
            println!(rt;
                "{}",
                operation::checksum(operation, operands.as_slice(), number)
            )
        }
        (None, Some(count)) => println!(rt;
            "{}",
            operation::comparison(size, u64::from(number), count)
        ),
        _ => println!(rt; "{USAGE}"),
    }
}

const USAGE: &str =
    "usage: ratio_bench add|mul|cmp SIZE ROUNDS, or check SIZE SEED COUNT, where SIZE is \
whole|small|medium|limit|wide|mixed";
