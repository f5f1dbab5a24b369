//! What bridges make of items.

use crate::{Item, Items};
use aff_core::{Address, Aff};
use lists::Sequence;

/// What stands for a component of a group that was bridged: a variable, which is kept, or a
/// function of variables. A function that equals a variable is a function all the same.
#[derive(Debug, Drop)]
pub enum Expression {
    Kept { var: Address },
    Bridged { func: Aff },
}

/// An expression for each component of a group.
pub type Expressions = Sequence<Expression>;

/// The children of an item by an edge, in the order of their positions: groups, rows, and an
/// objective. There is an expression for each component of a group, and none for another item.
#[derive(Debug, Drop)]
pub struct Image {
    pub groups: Items,
    pub exprs: Expressions,
    pub rows: Items,
    pub objective: Option<Item>,
}
