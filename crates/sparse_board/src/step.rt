//! The row that a pivot lowers others by.
ghost use Rattle.std.specs.Prelude.{◌≡◌, ◌+◌, ◌<◌, ◌≤◌, ◌^◌, false};
ghost use Rattle.sparse_board.specs.Numbers.{width_of};
ghost use Rattle.whole_rows.specs.Rows as whole;

use crate::lowering::divide;
use crate::mixed_row::MixedRow;
use crate::sparse_row::SparseRow;
use crate::spreading::spread_row;
use ratio_core::{NumberFault, Ratio};
use std::alloc::{AllocError, Global};
use whole_rows::{NarrowRow, NarrowStep, number};

// Its numbers as whole numbers where these are enough, else as fractions. The fractions of whole
// numbers are worked out where a row of fractions is lowered by them: mostly none is.
#[derive(Drop)]
pub(crate) struct Step {
    pub(crate) width: usize,
    pub(crate) wide: SparseRow,
    pub(crate) narrow: NarrowStep,
    pub(crate) is_narrow: bool,
    pub(crate) is_spread: bool,
    // whether each row that a pivot changes is known to stay one of whole numbers
    pub(crate) all_stay: bool,
    ghost few: { width < 2 ^ 32 },
    ghost room: { width ≡ whole.width_of narrow.row + 1 },
    ghost most: { width_of wide ≤ width },
    ghost full: { is_narrow ≡ false → width_of wide ≡ width },
}

impl Step {
    ghost use Rattle.std.specs.Prelude.{◌≢◌, ℕ, true, IfOk, OnOk};
    ghost use Rattle.ratio_core.specs.Rational.{zero_ℚ, ◌/ℚ◌};
    ghost use Rattle.tableau_core.specs.BoardNumbers.{quotients_fit};
    ghost use Rattle.sparse_board.specs.Numbers as sparse;
    ghost use Rattle.sparse_board.specs.Mixed as mixed;
    ghost use Rattle.sparse_board.specs.Testing.{IsTest};

    // Zeros in this number of columns, and a right side.
    pub(crate) fn zeros(alloc: Global, width: usize) -> Result<Step, AllocError>
        requires { width + 1 < 2 ^ 32 }
        ensures { IfOk result (λ step. step.width ≡ width + 1) }
    {
        Ok(Step {
            width: width + 1,
            wide: SparseRow::closed(alloc),
            narrow: NarrowStep::zeros(alloc, width)?,
            is_narrow: true,
            is_spread: false,
            all_stay: false,
        })
    }

    // Whether it is one of small whole numbers over 1.
    #[inline]
    pub(crate) fn is_unit(&self) -> bool
        ensures { result ≡ mixed.is_unit self.now }
    {
        self.is_narrow && self.narrow.row.den == 1 && self.narrow.row.is_small()
    }

    // The number of a column.
    pub(crate) fn number(&self, column: u32) -> Ratio
        ensures { result ≡ mixed.units_of self.now column }
    {
        if self.is_narrow {
            number(&self.narrow.row, column as usize)
        } else {
            self.wide.number(column)
        }
    }

    // Takes a row that is divided by its number of column q, and works its fractions out where they
    // are asked for.
    pub(crate) fn set(&mut self, row: &MixedRow, q: u32, asked: bool) -> Result<(), NumberFault>
        requires width { mixed.width_of row.now ≡ self.old.width }
        requires column { q + 1 < self.old.width }
        requires nonzero { mixed.number_of row.now q ≢ zero_ℚ }
        ensures width { self.new.width ≡ self.old.width }
        ensures fits { IsTest (quotients_fit (mixed.width_of row.now)
            (mixed.number_of row.now) (mixed.number_of row.now q)) result }
        ensures ok { OnOk result ((j : ℕ) → j < mixed.width_of row.now
            → mixed.units_of self.new j
            ≡ mixed.number_of row.now j /ℚ mixed.number_of row.now q) }
        ensures both { OnOk result (mixed.IsBoth self.new) }
    {
        if row.is_wide {
            return self.set_wide(&row.wide, q);
        }
        self.set_narrow(&row.narrow, q);
        if !asked {
            return Ok(());
        }
        Ok(self.spread()?)
    }

    // Takes a row of fractions, divided.
    fn set_wide(&mut self, row: &SparseRow, q: u32) -> Result<(), NumberFault>
        requires width { width_of row.now ≡ self.old.width }
        requires nonzero { sparse.number_of row.now q ≢ zero_ℚ }
        ensures width { self.new.width ≡ self.old.width }
        ensures fits { IsTest (quotients_fit (width_of row.now)
            (sparse.number_of row.now) (sparse.number_of row.now q)) result }
        ensures ok { OnOk result ((j : ℕ) → j < width_of row.now
            → mixed.units_of self.new j
            ≡ sparse.number_of row.now j /ℚ sparse.number_of row.now q) }
        ensures both { OnOk result (mixed.IsBoth self.new) }
    {
        let by = row.number(q);
        self.wide.open(self.width)?;
        self.is_narrow = false;
        self.is_spread = true;
        Ok(divide(row, &by, &mut self.wide)?)
    }

    // Takes a row of whole numbers, divided.
    fn set_narrow(&mut self, row: &NarrowRow, q: u32)
        requires column { q + 1 < self.old.width }
        requires nonzero { whole.number_of row.now q ≢ zero_ℚ }
        ensures width { self.new.width ≡ self.old.width }
        ensures is_narrow { self.new.is_narrow ≡ true }
        ensures is_spread { self.new.is_spread ≡ false }
        ensures numbers { (j : ℕ) → j < self.old.width → mixed.units_of self.new j
            ≡ whole.number_of row.now j /ℚ whole.number_of row.now q }
    {
        self.is_narrow = true;
        self.is_spread = false;
        self.narrow.set(row, q as usize);
    }

    // Works the fractions of the whole numbers out.
    fn spread(&mut self) -> Result<(), AllocError>
        requires { self.old.is_narrow ≡ true }
        ensures width { self.new.width ≡ self.old.width }
        ensures units { (j : ℕ) → mixed.units_of self.new j ≡ mixed.units_of self.old j }
        ensures both { OnOk result (mixed.IsBoth self.new) }
    {
        self.wide.open(self.width)?;
        let narrow = &self.narrow;
        spread_row(&narrow.row, &mut self.wide);
        self.is_spread = true;
        Ok(())
    }
}
