//! Whether rows, objectives and functions of indices are the same.
ghost use Rattle.std.specs.Prelude.{◌≡◌, ◌≢◌, ◌↔◌, IsTrue, MatchBool};

use aff_core::Sense;
use set_core::Set;
use solver_store::{LeafObjective, LeafRow, LeafVar, SolverAff};

// Sets first: they stand in the row itself, and terms in memory of their own.
pub(crate) fn same_row(one: &LeafRow, other: &LeafRow) -> bool
    ensures { MatchBool result (one.now ≡ other.now) (one.now ≢ other.now) }
{
    match (one, other) {
        (
            LeafRow::Plain { var, set },
            LeafRow::Plain {
                var: v,
                set: another,
            },
        ) => var == v && same_set(set, another),
        (
            LeafRow::Affine { func, set },
            LeafRow::Affine {
                func: f,
                set: another,
            },
        ) => same_set(set, another) && same_function(func, f),
        (
            LeafRow::AffineVec { func, set },
            LeafRow::AffineVec {
                func: fs,
                set: another,
            },
        ) => same_set(set, another) && same_functions(func.as_slice(), fs.as_slice()),
        _ => false,
    }
}

pub(crate) fn same_objective(one: &LeafObjective, other: &LeafObjective) -> bool
    ensures { MatchBool result (one.now ≡ other.now) (one.now ≢ other.now) }
{
    match (one, other) {
        (
            LeafObjective::Plain { sense, var },
            LeafObjective::Plain {
                sense: another,
                var: v,
            },
        ) => same_sense(*sense, *another) && var == v,
        (
            LeafObjective::Affine { sense, func },
            LeafObjective::Affine {
                sense: another,
                func: f,
            },
        ) => same_sense(*sense, *another) && same_function(func, f),
        _ => false,
    }
}

fn same_functions(one: &[SolverAff], other: &[SolverAff]) -> bool
    ensures { IsTrue result ↔ (one.now ≡ other.now) }
{
    if one.len() != other.len() {
        return false;
    }
    for (func, f) in one.iter().zip(other) {
        if !same_function(func, f) {
            return false;
        }
    }
    true
}

fn same_function(one: &SolverAff, other: &SolverAff) -> bool
    ensures { IsTrue result ↔ (one.now ≡ other.now) }
{
    one.constant() == other.constant() && one.terms() == other.terms()
}

fn same_set(one: &Set, other: &Set) -> bool
    ensures { IsTrue result ↔ (one.now ≡ other.now) }
{
    one == other
}

pub(crate) fn same_kind(one: LeafVar, other: LeafVar) -> bool
    ensures { IsTrue result ↔ (one ≡ other) }
{
    one == other
}

fn same_sense(one: Sense, other: Sense) -> bool
    ensures { IsTrue result ↔ (one ≡ other) }
{
    one == other
}
