//! The unit matrix.
ghost use Rattle.std.specs.Prelude.{◌≡◌, ◌↔◌, ◌<◌, IsTrue, length};
ghost use Rattle.set_map.specs.Matrices.{unit, unit_number, unit_row};

use ratio_core::{Ratio, Ratios};

/// Whether rows are those of the unit matrix.
pub(crate) fn is_unit(rows: &[Ratios]) -> bool
    ensures { IsTrue result ↔ (rows.now ≡ unit (length rows.now)) }
{
    for (i, row) in rows.iter().enumerate() {
        if !is_unit_row(row.as_slice(), rows.len(), i) {
            return false;
        }
    }
    true
}

// Whether numbers are a row of the unit matrix.
fn is_unit_row(row: &[Ratio], size: usize, i: usize) -> bool
    requires { i < size }
    ensures { IsTrue result ↔ (row.now ≡ unit_row size i) }
{
    if row.len() != size {
        return false;
    }
    for (j, number) in row.iter().enumerate() {
        if *number != unit_number(i, j) {
            return false;
        }
    }
    true
}

// 1 at a place, and 0 at the others.
fn unit_number(i: usize, j: usize) -> Ratio
    ensures { result ≡ unit_number i j }
{
    if i == j { Ratio::one() } else { Ratio::zero() }
}
