// Exchanges of numbered loads.
ghost use Rattle.std.specs.Prelude.{◌≡◌};

use numbered_list::{Change, HasNumber, Numbered};
use test_support::Page;

#[derive(Clone, Copy, Debug)]
struct Load {
    number: u32,
    weight: u32,
}

impl HasNumber for Load {
    ghost number_of = { λ load. load.number };

    fn number(&self) -> u32 {
        self.number
    }
}

fn make_load(number: u32, weight: u32) -> Load
    ensures { result ≡ record { number = number; weight = weight } }
{
    Load { number, weight }
}

/// Two loads, put and found; and two changes, made and taken back.
pub fn show(page: &mut Page) {
    page.line("# numbered items");
    let mut loads = Numbered::new(page.alloc());
    put(page, &mut loads, make_load(5, 50));
    put(page, &mut loads, make_load(3, 30));
    find(page, &loads);
    change(page, &mut loads);
}

// Puts a load where there is room.
fn put(page: &mut Page, loads: &mut Numbered<Load>, load: Load) {
    if let Ok(()) = loads.reserve(1) {
        let before = loads.exchange(load.number, Some(load));
        page.line(format_args!("put {load:?}, before {before:?}"));
    }
}

fn find(page: &mut Page, loads: &Numbered<Load>) {
    let (at_3, at_4) = (loads.get(3), loads.get(4));
    page.line(format_args!("{} loads, at 3 {at_3:?}, at 4 {at_4:?}", loads.len()));
    page.line(format_args!("{loads:?}, none {}", loads.is_empty()));
}

// Nothing is to stand at 3, and a load at 4.
fn change(page: &mut Page, loads: &mut Numbered<Load>) {
    if let Ok(()) = loads.reserve(2) {
        let (number, content) = (3, None);
        let first = Change { number, content };
        let (number, content) = (4, Some(make_load(4, 40)));
        let mut changes = [first, Change { number, content }];
        loads.exchange_all(&mut changes);
        find(page, loads);
        loads.exchange_all(&mut changes);
        find(page, loads);
        loads.sweep();
        find(page, loads);
    }
}
