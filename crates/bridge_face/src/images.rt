//! Images of a group, or of a group and a row.
ghost use Rattle.std.specs.Prelude.{◌≡◌, ◌<◌, [], ◌∷◌, IfOk, None, length};
ghost use Rattle.bridge_face.specs.Images.{child_at, group_by};

use item_core::{Body, Expressions, Image, Item, Items};
use lists::Memory;
use std::alloc::Global;

/// The image of a group that has one child group, and an expression for each component.
pub fn group_image(alloc: Global, group: Item, exprs: Expressions) -> Result<Image, Memory>
    ensures { IfOk result (λ image. image ≡ group_by (group ∷ []) exprs) }
{
    Ok(Image {
        groups: one_item(alloc, group)?,
        exprs,
        rows: Items::new(alloc),
        objective: None,
    })
}

/// The image of an item that has a child group, at position 0, and a child row, at position 1.
pub fn group_row_image(
    alloc: Global,
    item: &Item,
    group: Item,
    exprs: Expressions,
    row: Body,
) -> Result<Image, Memory>
    requires { length item.now.at.positions < 40 }
    ensures { IfOk result (λ image. image ≡ record {
      groups = group ∷ [];
      exprs = exprs;
      rows = child_at item.now 1 row ∷ [];
      objective = None;
    }) }
{
    Ok(Image {
        groups: one_item(alloc, group)?,
        exprs,
        rows: one_item(
            alloc,
            Item {
                at: item.at.child(1),
                body: row,
            },
        )?,
        objective: None,
    })
}

/// A list of one item.
pub fn one_item(alloc: Global, item: Item) -> Result<Items, Memory>
    ensures { IfOk result (λ items. items ≡ item ∷ []) }
{
    let mut items = Vec::with_capacity(alloc, 1)?;
    items.push(item)?;
    Ok(Items::from_vec(items))
}
