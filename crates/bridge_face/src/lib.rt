//! The interface of bridges: what each makes of an item, what it keeps, and what it carries back.
#![tactic(auto)]

mod boxed;
mod bridge;
mod child_rows;
mod differences;
mod groups;
mod images;
mod item_functions;
mod kept_item;
mod one_group;
mod one_objective;
mod one_row;
mod rewriting;
mod rows;
mod sums;

pub use bridge::Bridge;
pub use child_rows::ChildRows;
pub use differences::{less_variable, less_variables, variable_less};
pub use groups::{child_group, components, inner_variables};
pub use images::{group_image, group_row_image, one_item};
pub use item_functions::{alone, component_count, item_set, variables};
pub use kept_item::KeptItem;
pub use one_group::{GroupRule, OneGroup};
pub use one_objective::{ObjectiveRule, OneObjective};
pub use one_row::{OneRow, RowRule};
pub use rewriting::Rewriting;
pub use rows::rows_image;
pub use sums::place_sums;
