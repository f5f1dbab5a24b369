//! Whether items of the user's are the same, names aside.
ghost use Rattle.std.specs.Prelude.{◌≡◌, ◌≢◌, ◌↔◌, ◌==◌, IsTrue, MatchBool, map};
ghost use Rattle.std.specs.List.{list_all, zip};
ghost use Rattle.std.specs.Option.{option_copied, option_map};
ghost use Rattle.fresh_bridging.specs.ModelImage.{group_item, objective_items, row_item};
ghost use Rattle.user_model.specs.Model.{variable_address};

use aff_core::{Address, Aff};
use set_core::Set;
use user_model::{Group, GroupVar, Objective, Row, UserFunc};

// Whether the same group stands before and after, or none.
pub(crate) fn same_groups(was: Option<&Group>, is: Option<&Group>) -> bool
    ensures { MatchBool result
        (option_map group_item (option_copied was.entry) ≡ option_map group_item (option_copied is.entry))
        (option_map group_item (option_copied was.entry) ≢ option_map group_item (option_copied is.entry)) }
{
    match (was, is) {
        (None, None) => true,
        (Some(was), Some(is)) => same_group(was, is),
        _ => false,
    }
}

// Whether the same row stands before and after, or none.
pub(crate) fn same_rows(was: Option<&Row>, is: Option<&Row>) -> bool
    ensures { MatchBool result
        (option_map row_item (option_copied was.entry) ≡ option_map row_item (option_copied is.entry))
        (option_map row_item (option_copied was.entry) ≢ option_map row_item (option_copied is.entry)) }
{
    match (was, is) {
        (None, None) => true,
        (Some(was), Some(is)) => same_row(was, is),
        _ => false,
    }
}

pub(crate) fn same_objective(one: &Objective, other: &Objective) -> bool
    ensures { MatchBool result (objective_items one.now ≡ objective_items other.now)
        (objective_items one.now ≢ objective_items other.now) }
{
    match (one, other) {
        (Objective::Feasibility, Objective::Feasibility) => true,
        (Objective::Plain { sense, var }, Objective::Plain { sense: s, var: v }) => {
            *sense == *s && *var == *v
        }
        (Objective::Affine { sense, func }, Objective::Affine { sense: s, func: f }) => {
            *sense == *s && *func == *f
        }
        _ => false,
    }
}

fn same_group(one: &Group, other: &Group) -> bool
    ensures { IsTrue result ↔ (group_item one.now ≡ group_item other.now) }
{
    one.id == other.id
        && same_set(&one.set, &other.set)
        && same_variables(one.vars.as_slice(), other.vars.as_slice())
}

fn same_row(one: &Row, other: &Row) -> bool
    ensures { IsTrue result ↔ (row_item one.now ≡ row_item other.now) }
{
    one.id == other.id && same_set(&one.set, &other.set) && same_function(&one.func, &other.func)
}

fn same_function(one: &UserFunc, other: &UserFunc) -> bool
    ensures { MatchBool result (one.now ≡ other.now) (one.now ≢ other.now) }
{
    match (one, other) {
        (UserFunc::Plain(one), UserFunc::Plain(other)) => *one == *other,
        (UserFunc::Affine(one), UserFunc::Affine(other)) => *one == *other,
        (UserFunc::PlainVec(one), UserFunc::PlainVec(other)) => {
            same_addresses(one.as_slice(), other.as_slice())
        }
        (UserFunc::AffineVec(one), UserFunc::AffineVec(other)) => {
            same_functions(one.as_slice(), other.as_slice())
        }
        _ => false,
    }
}

fn same_set(one: &Set, other: &Set) -> bool
    ensures { IsTrue result ↔ (one.now ≡ other.now) }
{
    one == other
}

fn same_variables(one: &[GroupVar], other: &[GroupVar]) -> bool
    ensures { IsTrue result ↔ (map (λ v. variable_address v.number) one.now
        ≡ map (λ v. variable_address v.number) other.now) }
{
    if one.len() != other.len() {
        return false;
    }
    same_numbers(one, other)
}

fn same_numbers(one: &[GroupVar], other: &[GroupVar]) -> bool
    ensures { result ≡ list_all (λ p. p.0.number == p.1.number) (zip one.now other.now) }
{
    one.iter().zip(other).all(|(var, v)| var.number == v.number)
}

fn same_addresses(one: &[Address], other: &[Address]) -> bool
    ensures { IsTrue result ↔ (one.now ≡ other.now) }
{
    one == other
}

fn same_functions(one: &[Aff], other: &[Aff]) -> bool
    ensures { IsTrue result ↔ (one.now ≡ other.now) }
{
    one == other
}
