// Names and their table.
ghost use Rattle.std.specs.Prelude.{◌≡◌, IsTrue, None};
ghost use Rattle.std.specs.FinMap as map;
ghost use Rattle.name_index.specs.NameTable.{IsNumberFree};

use lists::Duplicate;
use name_index::{Name, NameTable, Names};
use test_support::Page;

// Some stand for no name: their bytes are no UTF-8 (a lone byte, an overlong form, a surrogate,
// half a character), or there are none.
const TOKENS: [&str; 20] = [
    "x",
    "x[1]",
    "x%201",
    "%",
    "%2",
    "%zz",
    "%2g",
    "%%41",
    "%2541",
    "%4a%4A",
    "%00",
    "%00%1f",
    "~%7f",
    "%C3%A9",
    "%F0%9F%98%80",
    "%FF",
    "%C0%80",
    "%ED%A0%80",
    "%C3",
    "",
];

/// The names that tokens stand for, a text that is too long for a name, a list of names, and a
/// table of one name.
pub fn show(page: &mut Page) {
    page.line("# names");
    for token in &TOKENS {
        show_token(page, token);
    }
    too_long(page);
    if let Ok(x) = Name::new(page.alloc(), "x") {
        both_ways(page, &x);
        in_a_list(page, x);
    }
}

fn show_token(page: &mut Page, token: &str) {
    match Name::unescape(page.alloc(), token.as_bytes()) {
        Ok(Some(name)) => show_written(page, token, &name),
        other => page.line(format_args!("{token} is {other:?}")),
    }
}

fn show_written(page: &mut Page, token: &str, name: &Name) {
    page.word(format_args!("{token} is {:?}, ", name.text()));
    if let Ok(written) = name.escape() {
        show_escaped(page, written.as_slice());
    }
}

fn show_escaped(page: &mut Page, written: &[u8]) {
    page.line(format_args!("written {:?}", std::str::from_utf8(written)));
}

fn too_long(page: &mut Page) {
    if let Ok(text) = "x".repeat(page.alloc(), 4097) {
        let name = Name::new(page.alloc(), text.as_str());
        page.line(format_args!("4097 bytes are {name:?}"));
    }
}

fn in_a_list(page: &mut Page, name: Name) {
    let mut names = Names::new(page.alloc());
    if names.push(name).is_ok() {
        copy_names(page, &names);
    }
}

fn copy_names(page: &mut Page, names: &Names) {
    if let Ok(copy) = names.copy() {
        show_names(page, &copy);
    }
}

fn show_names(page: &mut Page, names: &Names) {
    page.word("names:");
    for name in names.as_slice() {
        page.word(format_args!(" {:?}", name.text()));
    }
    page.line("");
}

fn both_ways(page: &mut Page, name: &Name) {
    let mut table = NameTable::new(page.alloc());
    go_both_ways(page, &mut table, name);
}

// Puts a name into an empty table, finds it and takes it out.
fn go_both_ways(page: &mut Page, table: &mut NameTable, name: &Name) {
    let (room, is_put) = (table.reserve(1), put_copy(table, name));
    page.line(format_args!("room {room:?}, put {is_put}"));
    find(page, table, name);
    take_out(page, table);
    find(page, table, name);
}

fn take_out(page: &mut Page, table: &mut NameTable) {
    match table.remove(7) {
        Some(name) => page.line(format_args!("taken out: {:?}", name.text())),
        None => page.line("none taken out"),
    }
}

// Whether a free name gets the free number 7.
fn put_copy(table: &mut NameTable, name: &Name) -> bool {
    if !is_free(table, name) {
        return false;
    }
    match name.copy() {
        Ok(copy) => put(table, copy),
        Err(_) => false,
    }
}

fn is_free(table: &NameTable, name: &Name) -> bool
    ensures { IsTrue result → (map.get table.now.numbers name.now ≡ None)
        × IsNumberFree table.now.numbers 7 }
{
    table.id(name).is_none() && table.name(7).is_none()
}

fn put(table: &mut NameTable, name: Name) -> bool
    requires name_free { map.get table.old.numbers name ≡ None }
    requires id_free { IsNumberFree table.old.numbers 7 }
{
    table.add(name, 7).is_ok()
}

fn find(page: &mut Page, table: &NameTable, name: &Name) {
    page.word(format_args!("{:?} has {:?}, ", name.text(), table.id(name)));
    match table.name(7) {
        Some(found) => page.line(format_args!("and 7 is of {:?}", found.text())),
        None => page.line("and 7 is of none"),
    }
}
