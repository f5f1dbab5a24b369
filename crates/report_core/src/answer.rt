//! What a line is answered.
use name_index::Text;

/// The answer to a line.
#[derive(Debug, Drop)]
pub enum Answer {
    /// The line asks for nothing.
    Silent,
    /// The line was accepted, and this is printed.
    Printed(Text),
    /// The line was refused, this is printed, and nothing changed.
    Refused(Text),
    /// The work is to end.
    Quit,
    /// A file couldn't be fetched.
    ReadFault,
    /// A file is too long.
    TooLong,
    /// Memory ran out.
    Memory,
}
