//! How much a model may have.
ghost use Rattle.std.specs.Prelude.{◌≡◌, map};
ghost use Rattle.user_model.specs.Refusals.{first_of, full_at};

use user_model::Refusal;

/// Components of a group or of a vector function.
pub(crate) const COMPONENTS: u64 = 4096;

/// Terms of a scalar function or of a component.
pub(crate) const TERMS: u64 = 4096;

pub(crate) const VARIABLES: u64 = 65535;

pub(crate) const ROWS: u64 = 65535;

/// Terms of all rows and of the objective.
pub(crate) const ALL_TERMS: u64 = 1048576;

/// The last number that a group, a variable or a row is given.
pub(crate) const LAST_NUMBER: u64 = 4294967294;

/// The refusal for the first of these counts that pass the limit beside it.
pub(crate) fn first_passed(counts: &[(u64, u64)]) -> Option<Refusal>
    ensures { result ≡ first_of (map full_at counts.now) }
{
    for &(count, limit) in counts {
        if limit < count {
            return Some(Refusal::Full { count, limit });
        }
    }
    None
}
