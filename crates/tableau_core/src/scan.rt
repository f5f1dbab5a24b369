//! What the rule looks for among a row's real columns.
ghost use Rattle.std.specs.Prelude.{◌≡◌, ◌<◌, ◌≤◌, not, length, IfSome};
ghost use Rattle.ratio_core.specs.Rational.{rational_eq, zero_ℚ};
ghost use Rattle.simplex_form.specs.Search.{least_below};
ghost use Rattle.simplex_form.specs.Turns.{is_below};
ghost use Rattle.tableau_core.specs.Row.{cell};

use crate::sign::is_negative;
use ratio_core::Ratio;

// The first of this number of numbers that is below 0.
pub(crate) fn first_negative(row: &[Ratio], count: usize) -> Option<usize>
    requires { count ≤ length row.now }
    ensures value { result ≡ least_below count (λ j. is_below (cell row.now j) zero_ℚ) }
    ensures within { IfSome result (λ j. j < count) }
{
    for j in 0..count {
        if is_negative(&row[j]) {
            return Some(j);
        }
    }
    None
}

// The first of this number of numbers that isn't 0.
pub(crate) fn first_nonzero(row: &[Ratio], count: usize) -> Option<usize>
    requires { count ≤ length row.now }
    ensures value { result ≡ least_below count (λ j. not (rational_eq (cell row.now j) zero_ℚ)) }
    ensures within { IfSome result (λ j. (j < count) × ¬ (cell row.now j ≡ zero_ℚ)) }
{
    for j in 0..count {
        if !row[j].is_zero() {
            return Some(j);
        }
    }
    None
}
