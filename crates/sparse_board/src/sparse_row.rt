//! Numbers by column: those that aren't 0, in the order of their columns.
ghost use Rattle.std.specs.Prelude.{◌≡◌, ◌≢◌, ◌<◌, ◌≤◌, [], length, IfOk, OnErr, OnOk, vec_capacity};
ghost use Rattle.std.specs.List.Sorted.{IsBinarySearchResult, IsSearchInRange};
ghost use Rattle.std.specs.Ordering.{nat_cmp};
ghost use Rattle.ratio_core.specs.Rational.{Fits, zero_ℚ};
ghost use Rattle.sparse_board.specs.Sparse.{AreColumnsBelow, AreColumnsSplit, IsSparse, columns_in, values_in};

use crate::entry::Entry;
use ratio_core::Ratio;
use std::alloc::{AllocError, Global};

// There is room for a number in each column, so a number that is put takes no memory. It stands
// beside its column: apart, they would touch two pages of memory for each row.
#[derive(Drop)]
pub(crate) struct SparseRow {
    pub(crate) entries: Vec<Entry>,
    ghost sparse: { IsSparse (columns_in entries.items) (values_in entries.items) },
    ghost within: { AreColumnsBelow (vec_capacity entries) (columns_in entries.items) },
}

impl SparseRow {
    ghost use Rattle.sparse_board.specs.Numbers.{AppendsNumber, number_of, row_columns, width_of};

    // Zeros in this number of columns.
    pub(crate) fn zeros(alloc: Global, width: usize) -> Result<SparseRow, AllocError>
        ensures empty { IfOk result (λ row. row.entries.items ≡ []) }
        ensures width { IfOk result (λ row. width_of row ≡ width) }
    {
        let entries = Vec::with_capacity(alloc, width)?;
        Ok(SparseRow { entries })
    }

    // No columns.
    pub(crate) fn closed(alloc: Global) -> SparseRow
        ensures width { width_of result ≡ 0 }
    {
        SparseRow {
            entries: Vec::new(alloc),
        }
    }

    // Zeros in this number of columns, or the same row where there is no memory for them.
    #[inline(never)]
    pub(crate) fn open(&mut self, width: usize) -> Result<(), AllocError>
        requires { width_of self.old ≤ width }
        ensures ok { OnOk result (width_of self.new ≡ width) }
        ensures err { OnErr result (width_of self.new ≡ width_of self.old) }
    {
        self.entries.clear();
        self.entries.reserve_exact(width)
    }

    // The number of a column.
    pub(crate) fn number(&self, column: u32) -> Ratio
        ensures { result ≡ number_of self.now column }
    {
        match self.place_of(column) {
            Ok(place) => self.entries[place].value,
            Err(_) => Ratio::zero(),
        }
    }

    // Where the number of a column stands, or would stand.
    fn place_of(&self, column: u32) -> Result<usize, usize>
        ensures bound { IsSearchInRange result (length self.now.entries.items) }
        ensures position { IsBinarySearchResult (λ c. nat_cmp c column) (row_columns self.now)
            result }
    {
        self.entries
            .binary_search_by_key(&column, |entry| entry.column)
    }

    // How many of the numbers that aren't 0 are of columns below this one.
    pub(crate) fn count_below(&self, column: u32) -> usize
        ensures within { result ≤ length self.now.entries.items }
        ensures split { AreColumnsSplit column result (row_columns self.now) }
    {
        match self.place_of(column) {
            Ok(place) => place,
            Err(place) => place,
        }
    }

    // A number that isn't 0, of a column past those of the others.
    #[inline]
    pub(crate) fn push(&mut self, column: u32, value: Ratio)
        requires above { AreColumnsBelow column (row_columns self.old) }
        requires within { column < width_of self.old }
        requires other { value ≢ zero_ℚ }
        requires fits { Fits value }
        ensures { AppendsNumber column value self.old self.new }
    {
        self.entries.push_reserved(Entry { column, value });
    }

    // The same of any number.
    #[inline]
    pub(crate) fn push_any(&mut self, column: u32, value: Ratio)
        requires above { AreColumnsBelow column (row_columns self.old) }
        requires within { column < width_of self.old }
        requires fits { Fits value }
        ensures { AppendsNumber column value self.old self.new }
    {
        if !value.is_zero() {
            self.push(column, value);
        }
    }

    // Zeros in all columns.
    pub(crate) fn clear(&mut self)
        ensures empty { self.new.entries.items ≡ [] }
        ensures width { width_of self.new ≡ width_of self.old }
    {
        self.entries.clear();
    }
}
