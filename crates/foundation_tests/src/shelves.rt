// Shelves in memory, and that of the system, which lacks a file and can't read a folder. The stored
// run of `moi_edit` fetches files of the system that are there.
use crate::calls::fails_at;
use io_face::{Files, MemShelf, NamedFile, NamedFiles, Shelf, SureShelf};
use std::alloc::{AllocError, Global};
use test_support::Page;

/// Fetches from each kind of shelf.
pub fn show(rt: &HostRuntime, page: &mut Page) {
    page.line("# shelves");
    sure(page);
    failing(page);
    of_the_system(page, &mut Files::new(rt));
}

fn file(alloc: Global) -> Result<NamedFile, AllocError> {
    let name = String::from_str(alloc, "m.json")?;
    let bytes = b"{}".to_vec(alloc)?;
    Ok(NamedFile { name, bytes })
}

// The one file, or none where there is no memory.
fn one_file(alloc: Global) -> NamedFiles {
    match file(alloc) {
        Ok(file) => files_of(alloc, file),
        Err(_) => NamedFiles::new(alloc),
    }
}

fn files_of(alloc: Global, file: NamedFile) -> NamedFiles {
    let mut files = NamedFiles::new(alloc);
    match files.push(file) {
        Ok(()) => files,
        Err(_) => NamedFiles::new(alloc),
    }
}

fn sure(page: &mut Page) {
    let mut shelf = SureShelf::new(one_file(page.alloc()));
    fetch(page, "sure", &mut shelf, "m.json");
    fetch(page, "sure", &mut shelf, "n.json");
}

fn failing(page: &mut Page) {
    let mut shelf = MemShelf::new(one_file(page.alloc()), fails_at(page.alloc(), 1));
    fetch(page, "the first fails", &mut shelf, "m.json");
    fetch(page, "the first fails", &mut shelf, "m.json");
    fetch(page, "the first fails", &mut shelf, "n.json");
}

fn of_the_system<H: Shelf>(page: &mut Page, shelf: &mut H) {
    fetch(page, "of the system", shelf, "none.json");
    fetch(page, "of the system", shelf, ".");
}

fn fetch<H: Shelf>(page: &mut Page, what: &str, shelf: &mut H, name: &str) {
    let mut into = Vec::new(page.alloc());
    let fetched = shelf.fetch(name, &mut into);
    page.word(format_args!("fetch {name}, {what}: {fetched:?} "));
    show_fetched(page, &into, shelf.faults());
}

fn show_fetched(page: &mut Page, into: &[u8], faults: u64) {
    page.line(format_args!("{:?}, faults {faults}", std::str::from_utf8(into)));
}
