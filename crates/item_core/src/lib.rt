//! Items of models and of what bridges make of them: their kinds, the edges between kinds, and
//! which of both may be used.
#![tactic(auto)]

mod edge;
mod family;
mod image;
mod item;
mod kind;
mod table;

pub use aff_core::Sense;
pub use edge::{Children, EDGE_COUNT, EDGE_ROWS, EDGES, Edge, EdgeEntry};
pub use family::{FAMILY_COUNT, Family};
pub use image::{Expression, Expressions, Image};
pub use item::{Body, Item, Items, affine_kind, group_kind, kind_of, plain_kind};
pub use kind::{FirstWord, KIND_COUNT, KINDS, Kind, KindTable, SecondWord};
pub use table::{Table, Target};
