// Sinks: in memory, and of a system that interrupts and fails.
use crate::calls::fails_at;
use io_face::{MemSink, Sink, StdOut, SureSink, write_all};
use std::io;
use std::io::{ErrorKind, Write};
use test_support::Page;

/// Writes to each kind of sink.
pub fn show(page: &mut Page) {
    page.line("# sinks");
    let mut sink = SureSink::new(page.alloc());
    write(page, "whole", &mut sink);
    written(page, sink.written());
    in_pieces(page, "in pieces, the third fails", 3);
    in_pieces(page, "the first fails", 1);
    write(page, "interrupted", &mut StdOut::new(Wire { calls: 0 }));
    write(
        page,
        "no byte is taken",
        &mut StdOut::new(Wire { calls: 2 }),
    );
}

fn write<O: Sink>(page: &mut Page, what: &str, sink: &mut O) {
    let count = sink.write(b"hello");
    page.line(format_args!("write, {what}: {count:?}, faults {}", sink.faults()));
}

fn written(page: &mut Page, bytes: &[u8]) {
    page.line(format_args!("    {:?}", std::str::from_utf8(bytes)));
}

// A sink takes two bytes at a time, and fails at a write: one write, then the text up to a fault.
fn in_pieces(page: &mut Page, what: &str, failing: u64) {
    let mut sink = MemSink::new(page.alloc(), 2, fails_at(page.alloc(), failing));
    write(page, what, &mut sink);
    written(page, sink.written());
    write_text(page, &mut sink);
}

fn write_text(page: &mut Page, sink: &mut MemSink) {
    let answer = write_all(sink, b"hello");
    page.line(format_args!("    all: {answer:?}"));
    written(page, sink.written());
}

/// Is interrupted, takes a byte, then none, and fails.
#[derive(Drop)]
struct Wire {
    calls: u8,
}

impl Write for Wire {
    fn write(&mut self, piece: &[u8]) -> io::Result<usize> {
        self.calls = self.calls.saturating_add(1);
        match self.calls {
            1 => Err(ErrorKind::Interrupted.into()),
            2 => Ok(piece.len().min(1)),
            3 => Ok(0),
            _ => Err(ErrorKind::BrokenPipe.into()),
        }
    }

    fn flush(&mut self) -> io::Result<()> {
        Ok(())
    }
}
