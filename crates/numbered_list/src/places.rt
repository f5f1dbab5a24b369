//! Places by number, each with what stands there.
ghost use Rattle.std.specs.Prelude.{◌≡◌, ◌<◌, ◌≤◌, ℕ, IsSome, IsNone, filter, length, vec_len};
ghost use Rattle.std.specs.Vec.{vec_capacity};
ghost use Rattle.numbered_list.specs.Numbered.{IsAt, find, set_at};
ghost use Rattle.numbered_list.specs.Changes.{AreChanges, change_to, changed_number};
ghost use Rattle.numbered_list.specs.Listed as listed;
ghost use Rattle.numbered_list.specs.Listed.{present};

use crate::search::place_of;
use crate::{Change, HasNumber};
use std::mem;

// Puts a new content at a number, an item or nothing, and gives back what stood there. Where the
// number has no place yet, an item gets one, for which those without an item may have to go. It
// takes no memory.
pub(crate) fn exchange_content<X: HasNumber + Drop>(
    places: &mut Vec<Change<X>>,
    number: u32,
    new: Option<X>,
) -> Option<X>
    requires are { AreChanges X.number_of places.old.items }
    requires own { IsAt X.number_of number new }
    requires room { IsSome new → IsNone (find X.number_of number (present places.old.items))
        → length (present places.old.items) < vec_capacity places.old }
    ensures before { result ≡ find X.number_of number (present places.old.items) }
    ensures after { present places.new.items
        ≡ set_at X.number_of number new (present places.old.items) }
    ensures are { AreChanges X.number_of places.new.items }
    ensures capacity { vec_capacity places.old ≤ vec_capacity places.new }
{
    if let Ok(place) = place_of(places, number) {
        let change = Change {
            number,
            content: new,
        };
        return mem::replace(&mut places[place], change).content;
    }
    let Some(item) = new else {
        return None;
    };
    make_room(places);
    insert_new(places, number, item);
    None
}

// Puts an item at a number that has no place yet, for which there is room.
fn insert_new<X: HasNumber>(places: &mut Vec<Change<X>>, number: u32, item: X)
    requires are { AreChanges X.number_of places.old.items }
    requires new { find changed_number number places.old.items ≡ None }
    requires room { vec_len places.old < vec_capacity places.old }
    ensures after { places.new.items
        ≡ set_at changed_number number (Some (change_to number (Some item))) places.old.items }
    ensures capacity { vec_capacity places.old ≤ vec_capacity places.new }
{
    let Err(place) = place_of(places, number) else {
        unreachable!()
    };
    let change = Change {
        number,
        content: Some(item),
    };
    match places.insert(place, change) {
        Ok(()) => (),
        Err(_) => unreachable!(),
    }
}

// Sees that there is room for one place more: where there is none, the places without an item go.
fn make_room<X: HasNumber + Drop>(places: &mut Vec<Change<X>>)
    requires are { AreChanges X.number_of places.old.items }
    requires room { length (present places.old.items) < vec_capacity places.old }
    ensures items { present places.new.items ≡ present places.old.items }
    ensures are { AreChanges X.number_of places.new.items }
    ensures room { vec_len places.new < vec_capacity places.new }
    ensures none { (n : ℕ) → find changed_number n places.old.items ≡ None
        → find changed_number n places.new.items ≡ None }
    ensures capacity { vec_capacity places.old ≤ vec_capacity places.new }
{
    if places.len() == places.capacity() {
        sweep_places(places);
    }
}

// Leaves the places with an item alone.
pub(crate) fn sweep_places<X: HasNumber + Drop>(places: &mut Vec<Change<X>>)
    ensures after { places.new.items ≡ filter listed.has_item places.old.items }
    ensures capacity { vec_capacity places.new ≡ vec_capacity places.old }
{
    places.retain(|place| has_item(place));
}

// Whether an item stands at the place.
fn has_item<X>(place: &Change<X>) -> bool
    ensures { result ≡ listed.has_item place.now }
{
    place.content.is_some()
}
