//! What the simplex asks of a board.
ghost use Rattle.std.specs.Prelude.{◌≡◌, ◌≢◌, ◌*◌, ◌<◌, All, false, true, length, IfOk, IfSome, IsErrOf, MatchResult, OnOk};
ghost use Rattle.ratio_core.specs.Rational.{zero_ℚ, ◌≤ℚ◌, ◌‹ℚ◌};
ghost use Rattle.simplex_form.specs.Basis.{start};
ghost use Rattle.simplex_form.specs.Fit.{pivot_fits, start_fits};
ghost use Rattle.simplex_form.specs.Turns as bland;
ghost use Rattle.tableau_core.specs.BoardContents.{BoardContents, IsBoardOf, IsInUse, IsPivoted, prices_of, readings_of, width};
ghost use Rattle.tableau_core.specs.Start.{form_of};

use crate::cost_row::CostRow;
use ratio_core::{NumberFault, Ratio};
use sparse_ratios::SparseRatios;
use std::alloc::Global;

/// The rows and costs of a form at a basis: the real columns, an artificial column for each row,
/// and the right sides. The first cost row is in use until `end_phase_one`.
pub trait Tableau: Sized {
    /// What the board keeps.
    ghost contents: { Self → BoardContents };

    /// The board at the artificial columns, of `m` rows and `c` real columns with the matrix row by
    /// row. Overflow where a sum of a column's entries doesn't fit.
    fn start(
        alloc: Global,
        m: usize,
        c: usize,
        matrix: &SparseRatios,
        right: &[Ratio],
        costs: &[Ratio],
    ) -> Result<Self, NumberFault>
        requires matrix { length matrix.now ≡ m * c }
        requires right { length right.now ≡ m }
        requires costs { length costs.now ≡ c }
        requires standard { All (λ side. zero_ℚ ≤ℚ side) right.now }
        ensures board { let F = form_of m c matrix.now right.now costs.now in
            IfOk result (λ board. IsBoardOf F (start F) (contents board)) }
        ensures in_first { IfOk result (λ board. (contents board).in_first ≡ true) }
        ensures fits { OnOk result
            (start_fits (form_of m c matrix.now right.now costs.now) ≡ true) }
        ensures overflow { IsErrOf result NumberFault.Overflow
            → start_fits (form_of m c matrix.now right.now costs.now) ≡ false };

    /// How many rows there are.
    fn row_count(&self) -> usize
        ensures { result ≡ length (contents self.now).rows };

    /// How many real columns there are.
    fn real_count(&self) -> usize
        ensures { result ≡ (contents self.now).reals };

    /// How many columns there are, real and artificial.
    fn column_count(&self) -> usize
        ensures { result ≡ width (contents self.now) };

    /// The number in row `r` and column `q`.
    fn entry(&self, r: usize, q: usize) -> Ratio
        requires row { r < length (contents self.now).rows }
        requires column { q < width (contents self.now) }
        ensures { result ≡ (readings_of (contents self.now)).entry q r };

    /// The right side of row `r`.
    fn right(&self, r: usize) -> Ratio
        requires { r < length (contents self.now).rows }
        ensures { result ≡ (readings_of (contents self.now)).right r };

    /// The price of column `q` in a cost row that is in use.
    fn price(&self, costs: CostRow, q: usize) -> Ratio
        requires used { IsInUse costs (contents self.now) }
        requires column { q < width (contents self.now) }
        ensures { result ≡ prices_of costs (contents self.now) q };

    /// The basic column of each row.
    fn basis(&self) -> &[usize]
        ensures columns { result.now ≡ (contents self.now).basis }
        ensures long { length (contents self.now).basis ≡ length (contents self.now).rows };

    /// The least real column of negative price in a cost row that is in use.
    fn entering(&self, costs: CostRow) -> Option<usize>
        requires used { IsInUse costs (contents self.now) }
        ensures value { let t = contents self.now in
            result ≡ bland.entering (readings_of t) (prices_of costs t) }
        ensures real { IfSome result (λ q. q < (contents self.now).reals) };

    /// The row of least ratio of its right side to its positive entry of column `q`, and of these
    /// that of least basic column.
    fn leaving(&self, q: usize) -> Option<usize>
        requires column { q < width (contents self.now) }
        ensures value { result ≡ bland.leaving (readings_of (contents self.now)) q }
        ensures row { let t = contents self.now in IfSome result (λ r.
            (r < length t.rows) × (zero_ℚ ‹ℚ (readings_of t).entry q r)) };

    /// The least real column whose entry in row `r` isn't 0.
    fn swept_column(&self, r: usize) -> Option<usize>
        requires row { r < length (contents self.now).rows }
        ensures value { result ≡ bland.swept_column (readings_of (contents self.now)) r }
        ensures entry { let t = contents self.now in IfSome result (λ q.
            (q < t.reals) × ¬ ((readings_of t).entry q r ≡ zero_ℚ)) };

    /// Column `q` enters in row `r`, or nothing changes: Overflow where a quotient, product or
    /// difference doesn't fit, and Memory where there is no room for numbers that become longer.
    fn pivot(&mut self, r: usize, q: usize) -> Result<(), NumberFault>
        requires row { r < length (contents self.old).rows }
        requires column { q < width (contents self.old) }
        requires nonzero { (readings_of (contents self.old)).entry q r ≢ zero_ℚ }
        ensures fits { let t = contents self.old in
            OnOk result (pivot_fits t.in_first (readings_of t) r q ≡ true) }
        ensures overflow { let t = contents self.old in IsErrOf result NumberFault.Overflow
            → pivot_fits t.in_first (readings_of t) r q ≡ false }
        ensures board { MatchResult result
            (λ _. IsPivoted r q (contents self.old) (contents self.new))
            (λ _. contents self.new ≡ contents self.old) };

    /// Leaves the first cost row out of later pivots.
    fn end_phase_one(&mut self)
        ensures { contents self.new ≡ record (contents self.old) { in_first = false } };
}
