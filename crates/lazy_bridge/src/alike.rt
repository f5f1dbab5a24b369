//! Whether items name the same variables, so that what is noted of them stays.
ghost use Rattle.std.specs.Prelude.{◌≡◌, IsTrue, length};
ghost use Rattle.std.specs.Prelude as prelude;
ghost use Rattle.std.specs.List.{list_all, list_any, zip};
ghost use Rattle.aff_core.specs.Address.{Address, address_eq};
ghost use Rattle.lazy_bridge.specs.Mentioned.{contents_name, row_names};
ghost use Rattle.user_model.specs.Functions.{func_mentions, has_term};
ghost use Rattle.user_model.specs.Model.{objective_mentions};

use aff_core::{Address, Aff};
use ratio_core::Ratio;
use touched_items::ModelItems;
use user_model::{Objective, Row, UserFunc};

// Whether the rows and the objective among some items name the same variables as those among others.
// They are compared one by one: the answer is `false` too where another order hides that they do.
pub(crate) fn name_alike(one: &ModelItems<'_>, other: &ModelItems<'_>) -> bool
    ensures { IsTrue result → (var at : Address)
        → contents_name one.now var at ≡ contents_name other.now var at }
{
    if !rows_alike(&one.rows, &other.rows) {
        return false;
    }
    match (one.objective, other.objective) {
        (None, None) => true,
        (Some(objective), Some(o)) => objectives_alike(objective, o),
        _ => false,
    }
}

fn rows_alike(one: &[&Row], other: &[&Row]) -> bool
    ensures { IsTrue result → (var at : Address)
        → list_any (λ row. row_names row var at) (prelude.map (λ r. r.now) one.now)
        ≡ list_any (λ row. row_names row var at) (prelude.map (λ r. r.now) other.now) }
{
    if one.len() != other.len() {
        return false;
    }
    for place in 0..one.len() {
        if !row_alike(one[place], other[place]) {
            return false;
        }
    }
    true
}

fn row_alike(one: &Row, other: &Row) -> bool
    ensures { IsTrue result → (var at : Address)
        → row_names one.now var at ≡ row_names other.now var at }
{
    one.id == other.id && func_alike(&one.func, &other.func)
}

fn func_alike(one: &UserFunc, other: &UserFunc) -> bool
    ensures { IsTrue result → (var : Address)
        → func_mentions var one.now ≡ func_mentions var other.now }
{
    match (one, other) {
        (UserFunc::Plain(one), UserFunc::Plain(other)) => *one == *other,
        (UserFunc::Affine(one), UserFunc::Affine(other)) => terms_alike(one, other),
        (UserFunc::PlainVec(one), UserFunc::PlainVec(other)) => {
            same_variables(one.as_slice(), other.as_slice())
        }
        (UserFunc::AffineVec(one), UserFunc::AffineVec(other)) => {
            components_alike(one.as_slice(), other.as_slice())
        }
        _ => false,
    }
}

fn objectives_alike(one: &Objective, other: &Objective) -> bool
    ensures { IsTrue result → (var : Address)
        → objective_mentions var one.now ≡ objective_mentions var other.now }
{
    match (one, other) {
        (Objective::Feasibility, Objective::Feasibility) => true,
        (Objective::Plain { var, .. }, Objective::Plain { var: v, .. }) => *var == *v,
        (Objective::Affine { func, .. }, Objective::Affine { func: f, .. }) => terms_alike(func, f),
        _ => false,
    }
}

fn same_variables(one: &[Address], other: &[Address]) -> bool
    ensures { IsTrue result → one.now ≡ other.now }
{
    one == other
}

fn components_alike(one: &[Aff], other: &[Aff]) -> bool
    ensures { IsTrue result → (var : Address)
        → list_any (has_term var) one.now ≡ list_any (has_term var) other.now }
{
    if one.len() != other.len() {
        return false;
    }
    for place in 0..one.len() {
        if !terms_alike(&one[place], &other[place]) {
            return false;
        }
    }
    true
}

fn terms_alike(one: &Aff, other: &Aff) -> bool
    ensures { IsTrue result → (var : Address) → has_term var one.now ≡ has_term var other.now }
{
    one.term_count() == other.term_count() && keys_alike(one.terms(), other.terms())
}

fn keys_alike(one: &[(Address, Ratio)], other: &[(Address, Ratio)]) -> bool
    ensures { result ≡ list_all (λ p. address_eq p.0.0 p.1.0) (zip one.now other.now) }
{
    one.iter().zip(other).all(|(term, t)| term.0 == t.0)
}
