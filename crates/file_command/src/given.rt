//! The arguments of a program.
use crate::status::Status;
use std::env;
use std::io::ErrorKind;
use std::rt::Env;

/// The arguments after the program's name. Those that are no text are of no command.
pub fn arguments<R: Env + AllocGlobal>(rt: &R) -> Result<Vec<String>, Status> {
    match env::args(rt) {
        Ok(words) => words
            .skip(1)
            .collect(rt.alloc())
            .map_err(|_| Status::Memory),
        Err(error) if error.kind() == ErrorKind::OutOfMemory => Err(Status::Memory),
        Err(_) => Err(Status::Usage),
    }
}
