//! The one error by which a program of tests ends early.
use std::error::Error;

/// Running out of memory, a line that says nothing that the program does, an edit that is to be
/// made and is refused, or what can't be read or written. It is `Copy`, so a way out by it costs little to
/// prove.
#[derive(Clone, Copy)]
pub struct Stop;

impl<E: Error> From<E> for Stop {
    fn from(_fault: E) -> Stop {
        Stop
    }
}
