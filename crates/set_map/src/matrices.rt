//! Columns and products of square matrices.
ghost use Rattle.std.specs.Prelude.{◌≡◌, ◌↔◌, ◌<◌, All, IfOk, IsTrue, length, map};
ghost use Rattle.ratio_core.specs.Answers.{ExactWhere};
ghost use Rattle.set_map.specs.Fitting.{AppliedFits};
ghost use Rattle.set_map.specs.Matrices.{IsSquare, applied, column, transposed, unit};

use crate::numbers::applied;
use crate::units::is_unit;
use lists::{Memory, Sequence};
use ratio_core::{NumberFault, Ratios};
use std::alloc::Global;

/// The columns of a square matrix.
pub(crate) fn transposed(alloc: Global, rows: &[Ratios]) -> Result<Vec<Ratios>, Memory>
    requires { IsSquare (length rows.now) rows.now }
    ensures { IfOk result (λ columns. columns.items ≡ transposed rows.now) }
{
    let mut columns = Vec::with_capacity(alloc, rows.len())?;
    for i in 0..rows.len() {
        columns.push(column(alloc, rows, i)?)?;
    }
    Ok(columns)
}

// The number of each row at a place.
fn column(alloc: Global, rows: &[Ratios], i: usize) -> Result<Ratios, Memory>
    requires { All (λ row. i < length row) rows.now }
    ensures { IfOk result (λ numbers. numbers ≡ column rows.now i) }
{
    let mut numbers = Vec::with_capacity(alloc, rows.len())?;
    for row in rows {
        numbers.push(row.as_slice()[i])?;
    }
    Ok(Sequence::from_vec(numbers))
}

/// Whether the product of a matrix with the one of these columns is the unit matrix. `Overflow` exactly
/// where the sum of an entry, from the left, exceeds 128 bits.
pub(crate) fn is_product_unit(
    alloc: Global,
    left: &[Ratios],
    columns: &[Ratios],
) -> Result<bool, NumberFault>
    requires { All (λ row. All (λ column. length column ≡ length row) columns.now) left.now }
    ensures { ExactWhere result (All (AppliedFits columns.now) left.now) (λ is_unit. IsTrue is_unit
        ↔ (map (applied columns.now) left.now ≡ unit (length left.now))) }
{
    let entries = applied_to_each(alloc, columns, left)?;
    Ok(is_unit(&entries))
}

// The product of each row of a matrix with each of some columns.
fn applied_to_each(
    alloc: Global,
    columns: &[Ratios],
    rows: &[Ratios],
) -> Result<Vec<Ratios>, NumberFault>
    requires { All (λ row. All (λ column. length column ≡ length row) columns.now) rows.now }
    ensures { ExactWhere result (All (AppliedFits columns.now) rows.now)
        (λ entries. entries.items ≡ map (applied columns.now) rows.now) }
{
    let mut entries = Vec::with_capacity(alloc, rows.len())?;
    for row in rows {
        entries.push(applied(alloc, columns, row.as_slice())?)?;
    }
    Ok(entries)
}
