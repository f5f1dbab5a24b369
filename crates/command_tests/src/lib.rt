//! What the programs that test a command share: cases, each a run over files and a sink in memory,
//! and how it ends, by its exit status, and what it writes.
//!
//!     case NAME              begins a case, with the command's usual arguments and two empty files
//!     words WORD ..          its arguments; `words` alone: none
//!     |LINE                  a line of the file `m.json`
//!     each N TEXT            a text in it, N times, separated by commas; `#` is the time, from 1
//!     >LINE                  a line of the file `maps.txt`
//!     unit N                 the lines of the unit matrix of N rows in it
//!     unended                its last byte is dropped
//!     missing                there is no file `m.json`
//!     without_maps           there is no file `maps.txt`
//!     bare                   no bridge is there, and not one of each family
//!     piece N                a write takes N bytes at most, and not 4,096
//!     failing fetch N        the fetch of this number fails, or the write
//!     run                    runs the case
#![tactic(auto)]

mod case;
mod command;
mod reading;
mod running;

pub use command::TestedCommand;
pub use reading::run_cases;
