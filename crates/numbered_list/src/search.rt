//! Where a number stands.
ghost use Rattle.std.specs.Prelude.{◌≡◌, ℕ, IsTrue};
ghost use Rattle.numbered_list.specs.Numbered.{Rise};
ghost use Rattle.numbered_list.specs.Places.{IsFoundAt, IsNumberPlace};

/// What has a number, by which it is found and in whose order it stands.
pub trait HasNumber {
    /// The number that `number` gives.
    ghost number_of: { Self → ℕ };

    fn number(&self) -> u32
        ensures { result ≡ number_of self.now };
}

/// Where the item with a number stands among items in the order of their numbers, or where it
/// would be inserted. Where no number is missing before it, and for a number above all, it takes a
/// few steps whatever the length.
pub(crate) fn place_of<X: HasNumber>(items: &[X], number: u32) -> Result<usize, usize>
    requires { Rise X.number_of items.now }
    ensures { IsNumberPlace X.number_of number items.now result }
{
    let ([first, ..], [.., last]) = (items, items) else {
        return Err(0);
    };
    if last.number() < number {
        return Err(items.len());
    }
    // numbers rise by 1 at least, so the item stands no further on
    let furthest = number.saturating_sub(first.number()) as usize;
    if is_at(items, furthest, number) {
        return Ok(furthest);
    }
    items.binary_search_by_key(&number, |item| item.number())
}

// Whether the item with a number stands at a place.
fn is_at<X: HasNumber>(items: &[X], place: usize, number: u32) -> bool
    requires { Rise X.number_of items.now }
    ensures { IsTrue result → IsFoundAt X.number_of number items.now place }
{
    if place >= items.len() {
        return false;
    }
    let item = &items[place];
    item.number() == number
}
