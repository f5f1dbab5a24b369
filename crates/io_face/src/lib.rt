//! Where bytes come from and go to: what a program reads and writes, seen from within.
//!
//! A source may tell which bytes it has left, a sink which bytes were written, and a shelf which
//! files it has. Contracts over such ones speak of texts; over one that tells nothing they speak of
//! faults alone.
#![tactic(auto)]

mod adapter;
pub mod files;
pub mod mem_shelf;
pub mod mem_sink;
pub mod mem_source;
mod named_file;
mod retry;
mod schedule;
pub mod shelf;
pub mod sink;
pub mod source;
pub mod std_in;
pub mod std_out;
pub mod sure_shelf;
pub mod sure_sink;
pub mod sure_source;
pub mod whole;

pub use files::Files;
pub use mem_shelf::MemShelf;
pub use mem_sink::MemSink;
pub use mem_source::MemSource;
pub use named_file::NamedFile;
pub use shelf::{FILE_LIMIT, FetchFault, Shelf};
pub use sink::{Sink, SinkFault, write_all};
pub use source::{Failed, Source};
pub use std_in::StdIn;
pub use std_out::StdOut;
pub use sure_shelf::SureShelf;
pub use sure_sink::SureSink;
pub use sure_source::SureSource;
pub use whole::read_whole;

/// Calls by their numbers, the first being 1.
pub type Calls = lists::Sequence<u64>;

/// Files in memory.
pub type NamedFiles = lists::Sequence<NamedFile>;
