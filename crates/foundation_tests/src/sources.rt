// Sources: in memory, and of a system that interrupts and fails.
use crate::calls::fails_at;
use io_face::{MemSource, Source, StdIn, SureSource, read_whole};
use std::io;
use std::io::{ErrorKind, Read};
use test_support::Page;

/// Reads from each kind of source.
pub fn show(page: &mut Page) {
    page.line("# sources");
    sure(page);
    in_pieces(page, "in pieces", 9);
    in_pieces(page, "the first fails", 1);
    read(page, "interrupted", &mut StdIn::new(Wire { calls: 0 }));
    read(page, "broken", &mut StdIn::new(Wire { calls: 2 }));
}

// Three bytes at most.
fn read<I: Source>(page: &mut Page, what: &str, source: &mut I) {
    let mut into = [0u8; 3];
    let count = source.read(&mut into);
    page.word(format_args!("read, {what}: {count:?} "));
    show_read(page, &into, source.faults());
}

fn show_read(page: &mut Page, into: &[u8], faults: u64) {
    page.line(format_args!("{:?}, faults {faults}", std::str::from_utf8(into)));
}

fn sure(page: &mut Page) {
    if let Ok(bytes) = b"hello".to_vec(page.alloc()) {
        let mut source = SureSource::new(bytes);
        read(page, "all that there is", &mut source);
        read(page, "what is left", &mut source);
    }
}

// One read of a source of pieces of two bytes, of which a read fails, and then all that is left.
fn in_pieces(page: &mut Page, what: &str, failing: u64) {
    if let Ok(bytes) = b"hello".to_vec(page.alloc()) {
        let mut source = MemSource::new(bytes, 2, fails_at(page.alloc(), failing));
        read(page, what, &mut source);
        read_left(page, &mut source);
    }
}

fn read_left(page: &mut Page, source: &mut MemSource) {
    let mut left = Vec::new(page.alloc());
    let answer = read_whole(source, &mut left);
    page.line(format_args!("    left: {answer:?} {:?}", std::str::from_utf8(&left)));
}

/// Is interrupted, gives two bytes, fails, and is at its end.
#[derive(Drop)]
struct Wire {
    calls: u8,
}

impl Read for Wire {
    fn read(&mut self, into: &mut [u8]) -> io::Result<usize> {
        self.calls = self.calls.saturating_add(1);
        match self.calls {
            1 => Err(ErrorKind::Interrupted.into()),
            2 if into.len() >= 2 => {
                into[..2].copy_from_slice(b"hi");
                Ok(2)
            }
            3 => Err(ErrorKind::Other.into()),
            _ => Ok(0),
        }
    }
}
