//! Whole numbers as fractions.
ghost use Rattle.std.specs.Prelude.{◌≡◌, ◌<◌, ◌^◌, ℕ};
ghost use Rattle.ratio_core.specs.Rational.{◌*ℚ◌, ◌-ℚ◌};
ghost use Rattle.sparse_board.specs.Numbers.{number_of, width_of};
ghost use Rattle.whole_rows.specs.Rows as whole;

use crate::sparse_row::SparseRow;
use whole_rows::{NarrowRow, lowered_number, number};

// Makes `wide` the numbers of the row.
pub(crate) fn spread_row(row: &NarrowRow, wide: &mut SparseRow)
    requires { width_of wide.old < 2 ^ 32 }
    ensures width { width_of wide.new ≡ width_of wide.old }
    ensures numbers { (j : ℕ) → j < width_of wide.old
        → number_of wide.new j ≡ whole.number_of row.now j }
{
    let width = wide.entries.capacity();
    wide.clear();
    for j in 0..width {
        let value = number(row, j);
        let _fits = value.num();
        wide.push_any(j as u32, value);
    }
}

// Makes `wide` the numbers of the row that is lowered.
#[inline(never)]
pub(crate) fn spread_lowered(row: &NarrowRow, step: &NarrowRow, q: usize, wide: &mut SparseRow)
    requires { width_of wide.old < 2 ^ 32 }
    ensures width { width_of wide.new ≡ width_of wide.old }
    ensures numbers { (j : ℕ) → j < width_of wide.old → number_of wide.new j
        ≡ whole.number_of row.now j
        -ℚ whole.number_of row.now q *ℚ whole.number_of step.now j }
{
    let width = wide.entries.capacity();
    wide.clear();
    for j in 0..width {
        let value = lowered_number(row, step, q, j);
        let _fits = value.num();
        wide.push_any(j as u32, value);
    }
}
