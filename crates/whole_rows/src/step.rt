//! The row that a pivot lowers others by.
ghost use Rattle.std.specs.Prelude.{◌≡◌, ◌<◌, ◌≤◌, ◌^◌, length, map, pos, take};
ghost use Rattle.whole_rows.specs.Listed.{ListsNonzeros};

use crate::marks::note_words;
use crate::narrow_row::NarrowRow;
use std::alloc::{AllocError, Global};
use std::mem;

/// A row of whole numbers, and the columns where it isn't 0.
#[derive(Drop)]
pub struct NarrowStep {
    /// The numbers.
    pub row: NarrowRow,
    /// The columns, rising, in the first places.
    pub columns: Vec<u32>,
    /// How many columns there are where the row isn't 0.
    pub used: usize,
    /// The words of the row's marks that have one, rising, in the first places.
    pub words: Vec<u32>,
    /// How many words there are with a mark.
    pub words_used: usize,
    ghost room: { length columns.items ≡ length row.numbers.items },
    ghost few: { length columns.items < 2 ^ 32 },
    ghost fits: { used ≤ length columns.items },
    ghost lists: { ListsNonzeros (take used columns.items) row.numbers.items },
    ghost words_room: { length words.items ≡ length row.marks.items },
    ghost words_fit: { words_used ≤ length words.items },
    ghost words_list: { ListsNonzeros (take words_used words.items) (map pos row.marks.items) },
}

impl NarrowStep {
    ghost use Rattle.std.specs.Prelude.{◌≢◌, ℕ, pos, IfOk};
    ghost use Rattle.ratio_core.specs.Rational.{◌/ℚ◌};
    ghost use Rattle.whole_rows.specs.Rows.{number_of, numerator_of, width_of};

    /// Zeros in this number of columns.
    pub fn zeros(alloc: Global, width: usize) -> Result<NarrowStep, AllocError>
        requires { width < 2 ^ 32 }
        ensures { IfOk result (λ step. width_of step.row ≡ width) }
    {
        let mut row = NarrowRow::zeros(alloc, width)?;
        let mut columns = vec![in alloc; 0u32; width]?;
        let used = row.note(&mut columns);
        let mut words = vec![in alloc; 0u32; row.marks.len()]?;
        let words_used = note_words(&row.marks, &mut words);
        Ok(NarrowStep {
            row,
            columns,
            used,
            words,
            words_used,
        })
    }

    /// Takes a row, divided by its number of column q.
    #[inline(never)]
    pub fn set(&mut self, row: &NarrowRow, q: usize)
        requires column { q < width_of self.old.row }
        requires nonzero { numerator_of row.now q ≢ pos 0 }
        ensures width { width_of self.new.row ≡ width_of self.old.row }
        ensures divided { (j : ℕ) → j ≤ width_of self.old.row
            → number_of self.new.row j ≡ number_of row.now j /ℚ number_of row.now q }
    {
        self.row.clear_listed(&self.columns[..self.used]);
        self.used = self.row.take_row(row, &mut self.columns);
        self.row.divide(&self.columns[..self.used], q);
        self.words_used = note_words(&self.row.marks, &mut self.words);
    }

    /// Gives its numbers to a row. What it has then means nothing: a row of as many columns is
    /// exchanged for its own, and made 0, and a row of others gets a copy.
    #[inline(never)]
    pub fn give(&mut self, row: &mut NarrowRow)
        ensures width { width_of row.new ≡ width_of row.old }
        ensures own_width { width_of self.new.row ≡ width_of self.old.row }
        ensures numbers { (j : ℕ) → j ≤ width_of row.old
            → number_of row.new j ≡ number_of self.old.row j }
    {
        if self.row.numbers.len() != row.numbers.len() {
            row.copy(&self.row);
            return;
        }
        mem::swap(&mut self.row, row);
        self.row.clear_marked();
        self.used = 0;
        self.words_used = 0;
    }
}
