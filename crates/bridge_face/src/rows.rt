//! Images of several rows.
ghost use Rattle.std.specs.Prelude.{◌≡◌, [], None};

use item_core::{Expressions, Image, Item, Items};
use std::alloc::Global;

/// The image of an item that has these child rows alone.
pub fn rows_image(alloc: Global, rows: Vec<Item>) -> Image
    ensures { result ≡ record {
      groups = [];
      exprs = [];
      rows = rows.items;
      objective = None;
    } }
{
    Image {
        groups: Items::new(alloc),
        exprs: Expressions::new(alloc),
        rows: Items::from_vec(rows),
        objective: None,
    }
}
