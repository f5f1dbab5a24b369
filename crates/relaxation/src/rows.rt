//! Soft rows and their slacks.
ghost use Rattle.std.specs.Prelude.{◌≡◌, ◌≤◌, length};
ghost use Rattle.relaxed_model.specs.Relaxed.{is_soft, row_signs, signs_on, slack_count};
ghost use Rattle.relaxation.specs.Signs.{signs_of};

use set_core::Set;
use user_model::{Row, Rows, UserFunc};

/// The slacks of a row, by the sides on which it may be violated.
#[derive(Clone, Copy)]
pub(crate) enum Slacks {
    /// A hard row has none.
    None,
    /// One is subtracted, below an upper bound.
    Subtracted,
    /// One is added, above a lower bound.
    Added,
    /// An equation and an interval have both.
    Both,
}

impl Slacks {
    /// How many there are.
    pub(crate) fn count(self) -> usize
        ensures count { result ≡ length (signs_of self) }
        ensures few { result ≤ 2 }
    {
        match self {
            Slacks::None => 0,
            Slacks::Subtracted | Slacks::Added => 1,
            Slacks::Both => 2,
        }
    }
}

/// Whether a row is soft, so that it may be violated: it is a scalar affine one.
pub fn is_soft(row: &Row) -> bool
    ensures { result ≡ is_soft row.now }
{
    matches!(row.func, UserFunc::Affine(_))
}

/// The slacks of a row.
pub(crate) fn slacks_of(row: &Row) -> Slacks
    ensures { signs_of result ≡ row_signs row.now }
{
    if is_soft(row) {
        slacks_on(&row.set)
    } else {
        Slacks::None
    }
}

fn slacks_on(set: &Set) -> Slacks
    ensures { signs_of result ≡ signs_on set.now }
{
    match set {
        Set::LessThan { .. } => Slacks::Subtracted,
        Set::GreaterThan { .. } => Slacks::Added,
        Set::EqualTo { .. } | Set::Interval { .. } => Slacks::Both,
        _ => Slacks::None,
    }
}

/// How many slacks all rows have.
#[tactic(auto, using(crate::proofs::RowLemmas::row_laws))]
pub(crate) fn slack_count(rows: &Rows) -> usize
    requires { length rows.now.items ≤ 65535 }
    ensures { result ≡ slack_count rows.now.items }
{
    let mut count = 0;
    for row in rows.iter() {
        count += slacks_of(row).count();
    }
    count
}
