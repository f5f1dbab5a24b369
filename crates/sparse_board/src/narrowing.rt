//! Fractions as whole numbers over a common denominator, where 64 bits are enough.
ghost use Rattle.std.specs.Prelude.{◌≡◌, ◌<◌, ◌≤◌, ◌+◌, ◌^◌, ℕ, IfSome, IsTrue, length};
ghost use Rattle.sparse_board.specs.Sparse.{values_in};
ghost use Rattle.sparse_board.specs.Numbers.{number_of, width_of};
ghost use Rattle.sparse_board.specs.Mixed.{IsDenominator};
ghost use Rattle.whole_rows.specs.Rows as whole;

use crate::entry::Entry;
use crate::sparse_row::SparseRow;
use whole_rows::{NarrowRow, common_denominator, over_denominator};

// Makes `row` the numbers of `wide`, or tells that they don't stay below 2^63.
pub(crate) fn narrow_to(wide: &SparseRow, row: &mut NarrowRow) -> bool
    requires { width_of wide.now ≤ whole.width_of row.old + 1 }
    ensures width { whole.width_of row.new ≡ whole.width_of row.old }
    ensures numbers { IsTrue result → (j : ℕ) → j < width_of wide.now
        → whole.number_of row.new j ≡ number_of wide.now j }
{
    let Some(den) = denominator_of(&wide.entries) else {
        return false;
    };
    row.clear(den);
    for k in 0..wide.entries.len() {
        let entry = &wide.entries[k];
        let Some(numerator) = over_denominator(&entry.value, den) else {
            return false;
        };
        row.put(entry.column as usize, numerator);
    }
    true
}

// The least denominator of all.
fn denominator_of(entries: &[Entry]) -> Option<u64>
    ensures { IfSome result (IsDenominator (values_in entries.now) (length entries.now)) }
{
    let mut den = 1;
    for k in 0..entries.len() {
        den = common_denominator(den, &entries[k].value)?;
    }
    Some(den)
}
