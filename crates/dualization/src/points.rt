//! Whether numbers are a point of the dual.
ghost use Rattle.std.specs.Prelude.{◌≡◌, ◌+◌, ◌<◌, ◌↔◌, None, IfSome, Some, length, true};
ghost use Rattle.group_numbering.specs.NewGroups.{variable_count};
ghost use Rattle.dual_model.specs.DualOf.{new_groups};
ghost use Rattle.dual_model.specs.GroupRowLaws.{own_total};
ghost use Rattle.dual_model.specs.RowPartLaws.{total_parts};

use crate::carrying::part_count;
use crate::rows::own_count;
use model_store::UserModel;
use ratio_core::Ratios;
use user_model::{Groups, Rows};

/// Whether there is a number for each variable of the model's dual, as `carry` asks.
pub fn is_point(model: &UserModel, x: &Ratios) -> bool
    ensures { (result ≡ true) ↔ (length x.now ≡ variable_count (new_groups model.now.model)) }
{
    match left_of_rows(model.rows(), x.len()) {
        Some(left) => is_zero(left_of_groups(model.groups(), left)),
        None => false,
    }
}

fn is_zero(left: Option<usize>) -> bool
    ensures { (result ≡ true) ↔ (left ≡ Some 0) }
{
    matches!(left, Some(0))
}

// How many numbers are left behind those of the rows' duals.
fn left_of_rows(rows: &Rows, count: usize) -> Option<usize>
    ensures some { IfSome result (λ left. left + total_parts rows.now.items ≡ count) }
    ensures none { result ≡ None → count < total_parts rows.now.items }
{
    let mut left = count;
    for row in rows.iter() {
        let own = part_count(row);
        if left < own {
            return None;
        }
        left -= own;
    }
    Some(left)
}

// How many are left behind those of the groups' own variables.
fn left_of_groups(groups: &Groups, count: usize) -> Option<usize>
    ensures some { IfSome result (λ left. left + own_total groups.now.items ≡ count) }
    ensures none { result ≡ None → count < own_total groups.now.items }
{
    let mut left = count;
    for group in groups.iter() {
        let own = own_count(&group.set);
        if left < own {
            return None;
        }
        left -= own;
    }
    Some(left)
}
