//! Marks of rows in columns.
ghost use Rattle.std.specs.Prelude.{◌≡◌, ◌+◌, ◌*◌, ◌/◌, ◌^◌, ◌<◌, vec_len};

use crate::words::{has_bit, join_words};
use std::alloc::{AllocError, Global};
use whole_rows::with_bit;

// The rows of a column are bits of words: 64 rows without a mark are passed over at once, and two
// columns are joined word by word.
#[derive(Drop)]
pub(crate) struct Marks {
    words: Vec<u64>,
    pub(crate) columns: usize,
    pub(crate) rows: usize,
    // how many words a column has
    stride: usize,
    ghost long: { vec_len words ≡ columns * stride },
    ghost room: { stride ≡ rows / 64 + 1 },
    ghost few: { rows < 2 ^ 32 },
}

impl Marks {
    ghost use Rattle.std.specs.Prelude.{◌≤◌, ℕ, true, false, IfOk};
    ghost use Rattle.sparse_board.specs.Marks.{IsJoined, IsPut, IsWord, IsWordJoined, IsWordPut, has};

    // No marks, in this number of columns of this number of rows.
    pub(crate) fn none(alloc: Global, columns: usize, rows: usize) -> Result<Marks, AllocError>
        requires few { columns < 2 ^ 32 }
        requires few_rows { rows < 2 ^ 32 }
        ensures columns { IfOk result (λ marks. marks.columns ≡ columns) }
        ensures rows { IfOk result (λ marks. marks.rows ≡ rows) }
        ensures none { IfOk result (λ marks. (j i : ℕ) → has marks j i ≡ false) }
    {
        let stride = rows / 64 + 1;
        let words = vec![in alloc; 0u64; columns * stride]?;
        Ok(Marks {
            words,
            columns,
            rows,
            stride,
        })
    }

    // Whether a row is marked in a column.
    #[inline]
    pub(crate) fn has(&self, column: usize, row: usize) -> bool
        requires column { column < self.now.columns }
        requires row { row < self.now.rows }
        ensures { result ≡ has self.now column row }
    {
        let place = column * self.stride + row / 64;
        has_bit(self.words[place], row % 64)
    }

    // How many words a column has.
    #[inline]
    pub(crate) fn stride(&self) -> usize
        ensures { result ≡ self.now.rows / 64 + 1 }
    {
        self.stride
    }

    // The k-th word of a column: its rows are those from 64 * k on.
    #[inline]
    pub(crate) fn word(&self, column: usize, k: usize) -> u64
        requires column { column < self.now.columns }
        requires place { k * 64 ≤ self.now.rows }
        ensures { IsWord column k result self.now }
    {
        let place = column * self.stride + k;
        self.words[place]
    }

    // Puts the k-th word of a column.
    #[inline]
    pub(crate) fn set_word(&mut self, column: usize, k: usize, word: u64)
        requires column { column < self.old.columns }
        requires place { k * 64 ≤ self.old.rows }
        ensures { IsWordPut column k word self.old self.new }
    {
        let place = column * self.stride + k;
        self.words[place] = word;
    }

    // Marks a column in the rows of a word's bits, which is the k-th of a column.
    #[inline]
    pub(crate) fn join_word(&mut self, column: usize, k: usize, word: u64)
        requires column { column < self.old.columns }
        requires place { k * 64 ≤ self.old.rows }
        ensures { IsWordJoined column k word self.old self.new }
    {
        let left = self.word(column, k);
        let joined = left | word;
        self.set_word(column, k, joined);
    }

    // Marks a row in a column.
    #[inline]
    pub(crate) fn set(&mut self, column: usize, row: usize)
        requires column { column < self.old.columns }
        requires row { row < self.old.rows }
        ensures { IsPut column row true self.old self.new }
    {
        let place = column * self.stride + row / 64;
        let word = with_bit(self.words[place], row % 64);
        self.words[place] = word;
    }

    // Marks column `to` in each row that is marked in column `from`.
    pub(crate) fn join(&mut self, from: usize, to: usize)
        requires from { from < self.old.columns }
        requires to { to < self.old.columns }
        ensures { IsJoined from to self.old self.new }
    {
        let source = from * self.stride;
        let target = to * self.stride;
        join_words(&mut self.words, source, target, self.stride);
    }
}
