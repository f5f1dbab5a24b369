//! Bounds that are set already, and variables of norm cones.
ghost use Rattle.std.specs.Prelude.{◌≡◌, ℕ, List};
ghost use Rattle.std.specs.List.{list_any};
ghost use Rattle.user_model.specs.declared.edit.Edit.TheVariants as edit;
ghost use Rattle.user_model.specs.Model.{has_lower_bound, has_upper_bound};
ghost use Rattle.user_model.specs.Refusals.{first_of, is_cone_row_of, is_in_cone};
ghost use Rattle.model_refusals.specs.Accepted.{IsGroupedVariable};
ghost use Rattle.model_refusals.specs.Bounds.{bound_tests};

use crate::GroupedVariable;
use aff_core::{Address, Root, has_address};
use model_catalog::Catalog;
use set_core::Set;
use user_model::{NamedFunc, Refusal, Row, Rows, UserFunc};

/// The refusal of a new row where it bounds a variable that has such a bound.
pub(crate) fn bound_already_set(model: &Catalog, func: &NamedFunc, set: &Set) -> Option<Refusal>
    ensures { (name : List ℕ) → result ≡ first_of
        (bound_tests model.now.model (edit.AddRow name func.now set.now)) }
{
    let NamedFunc::Plain(var) = func else {
        return None;
    };
    let number = model.variable(var)?;
    if set.lower_bound().is_some() && has_lower_bound(model, number) {
        return Some(Refusal::LowerBoundAlreadySet);
    }
    if set.upper_bound().is_some() && has_upper_bound(model, number) {
        return Some(Refusal::UpperBoundAlreadySet);
    }
    None
}

fn has_lower_bound(model: &Catalog, number: u32) -> bool
    ensures { result ≡ has_lower_bound model.now.model number }
{
    if model.has_lower_row(number) {
        return true;
    }
    match model.group_of(number) {
        Some(group) => group.set.lower_bound().is_some(),
        None => false,
    }
}

fn has_upper_bound(model: &Catalog, number: u32) -> bool
    ensures { result ≡ has_upper_bound model.now.model number }
{
    if model.has_upper_row(number) {
        return true;
    }
    match model.group_of(number) {
        Some(group) => group.set.upper_bound().is_some(),
        None => false,
    }
}

/// Whether the variable is in a norm-cone group or in a plain vector row over a norm cone.
pub(crate) fn is_in_cone(model: &Catalog, var: &GroupedVariable) -> bool
    requires { IsGroupedVariable model.now.model var.now }
    ensures { result ≡ is_in_cone model.now.model var.now.number }
{
    var.group.set.is_norm_cone() || is_in_cone_row(model.rows(), var.number)
}

fn is_in_cone_row(rows: &Rows, number: u32) -> bool
    ensures { result ≡ list_any (is_cone_row_of number) rows.now.items }
{
    for row in rows.iter() {
        if is_cone_row_of(row, number) {
            return true;
        }
    }
    false
}

fn is_cone_row_of(row: &Row, number: u32) -> bool
    ensures { result ≡ is_cone_row_of number row.now }
{
    match &row.func {
        UserFunc::PlainVec(vars) => {
            row.set.is_norm_cone() && has_address(vars, &Address::root(Root::Variable, number))
        }
        UserFunc::Plain(_) | UserFunc::Affine(_) | UserFunc::AffineVec(_) => false,
    }
}
