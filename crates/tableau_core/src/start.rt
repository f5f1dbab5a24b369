//! The numbers that a board starts with.
ghost use Rattle.std.specs.Prelude.{◌≡◌, ◌≢◌, ◌+◌, ◌*◌, ◌^◌, ◌<◌, ℕ, List, length, false, true, ◌≤◌, is_ok, IfOk, IsErrOf, OnErr, OnOk};
ghost use Rattle.std.specs.List.{range_with_len};
ghost use Rattle.ratio_core.specs.Rational.{Fits, Rational, neg_ℚ, one_ℚ, sum_fits, zero_ℚ, ◌+ℚ◌};
ghost use Rattle.sparse_ratios.specs.Terms.{AreTerms, number_at};
ghost use Rattle.simplex_form.specs.Form.{first_cost, second_cost};
ghost use Rattle.simplex_form.specs.Board.{entry, price};
ghost use Rattle.simplex_form.specs.Fit.{start_fits};
ghost use Rattle.tableau_core.specs.Row.{AllFit, IsChanged, cell};
ghost use Rattle.tableau_core.specs.Rows.{AreWide, now_at};
ghost use Rattle.tableau_core.specs.Start.{AtEachStart, IsListOf, form_of};

use crate::kept::{Row, zeros};
use ratio_core::{NumberFault, Ratio, RatioFault};
use sparse_ratios::SparseRatios;
use std::alloc::{AllocError, Global};

// The rows, whose basis matrix is the unit matrix.
pub(crate) fn start_rows(
    alloc: Global,
    m: usize,
    c: usize,
    matrix: &SparseRatios,
    right: &[Ratio],
) -> Result<Vec<Row>, AllocError>
    requires matrix { length matrix.now ≡ m * c }
    requires right { length right.now ≡ m }
    requires room { c + m + 1 < 2 ^ 64 }
    ensures count { IfOk result (λ rows. length rows.items ≡ m) }
    ensures wide { IfOk result (λ rows. AreWide (c + m + 1) rows.items) }
    ensures entries { IfOk result (λ rows. AtEachStart m c matrix.now (λ F s.
        (i j : ℕ) → i < m → j < c + m → cell (now_at rows.items i) j ≡ entry F s j i)) }
    ensures sides { IfOk result (λ rows.
        (i : ℕ) → i < m → cell (now_at rows.items i) (c + m) ≡ cell right.now i) }
{
    let mut rows = Vec::with_capacity(alloc, m)?;
    for (i, side) in right.iter().enumerate() {
        rows.push(start_row(alloc, m, c, matrix, i, side)?)?;
    }
    Ok(rows)
}

// Row i: its entries, the unit numbers of the artificial columns, and its right side.
fn start_row(
    alloc: Global,
    m: usize,
    c: usize,
    matrix: &SparseRatios,
    i: usize,
    side: &Ratio,
) -> Result<Row, AllocError>
    requires long { length matrix.now ≡ m * c }
    requires within { i < m }
    requires room { c + m + 1 < 2 ^ 64 }
    ensures long { IfOk result (λ row. length row.now.items ≡ c + m + 1) }
    ensures entries { IfOk result (λ row. AtEachStart m c matrix.now (λ F s.
        (j : ℕ) → j < c + m → cell row.now.items j ≡ entry F s j i)) }
    ensures side { IfOk result (λ row. cell row.now.items (c + m) ≡ side.now) }
{
    let mut numbers = zeros(alloc, c + m + 1)?;
    let terms = row_terms(m, c, matrix, i);
    fill_row(terms, i * c, m, c, i, side, &mut numbers);
    Row::new(alloc, numbers)
}

/// The numbers of row `i` that aren't 0, each beside its place in the matrix of `m` rows and `c`
/// columns: column `j` is at the place `i * c + j`.
pub fn row_terms(m: usize, c: usize, matrix: &SparseRatios, i: usize) -> &[(usize, Ratio)]
    requires long { length matrix.now ≡ m * c }
    requires within { i < m }
    ensures fits { i * c + c < 2 ^ 64 }
    ensures terms { AreTerms (i * c) (i * c + c) result.now }
    ensures numbers { (j : ℕ) → j < c
        → number_at result.now (i * c + j) ≡ cell matrix.now (i * c + j) }
{
    let _fits = matrix.len();
    matrix.terms_between(i * c, i * c + c)
}

// Puts the numbers of row i into zeros: its entries, each beside its place, the first of which is
// `from`; the unit number of its artificial column; and its right side.
fn fill_row(
    terms: &[(usize, Ratio)],
    from: usize,
    m: usize,
    c: usize,
    i: usize,
    side: &Ratio,
    numbers: &mut [Ratio],
)
    requires terms { AreTerms from (from + c) terms.now }
    requires within { i < m }
    requires room { c + m + 1 < 2 ^ 64 }
    requires long { length numbers.old ≡ c + m + 1 }
    requires zeros { (j : ℕ) → cell numbers.old j ≡ zero_ℚ }
    requires all_fit { AllFit numbers.old }
    ensures long { length numbers.new ≡ c + m + 1 }
    ensures reals { (j : ℕ) → j < c → cell numbers.new j ≡ number_at terms.now (from + j) }
    ensures unit { cell numbers.new (c + i) ≡ one_ℚ }
    ensures others { (j : ℕ) → c ≤ j → j < c + m → j ≢ c + i → cell numbers.new j ≡ zero_ℚ }
    ensures side { cell numbers.new (c + m) ≡ side.now }
    ensures all_fit { AllFit numbers.new }
{
    put_row(terms, from, c, numbers);
    put_number(numbers, c + i, Ratio::one());
    put_number(numbers, c + m, *side);
}

// Puts a row's numbers, each beside its place, into c zeros. The first column's place is `from`.
fn put_row(terms: &[(usize, Ratio)], from: usize, c: usize, numbers: &mut [Ratio])
    requires terms { AreTerms from (from + c) terms.now }
    requires long { c ≤ length numbers.old }
    requires zeros { (j : ℕ) → j < c → cell numbers.old j ≡ zero_ℚ }
    requires all_fit { AllFit numbers.old }
    ensures put { IsChanged (λ j _. number_at terms.now (from + j)) c numbers.old numbers.new }
    ensures all_fit { AllFit numbers.new }
{
    for term in terms {
        let j = term.0 - from;
        put_number(numbers, j, term.1);
    }
}

fn put_number(numbers: &mut [Ratio], j: usize, number: Ratio)
    requires within { j < length numbers.old }
    requires all_fit { AllFit numbers.old }
    ensures long { length numbers.new ≡ length numbers.old }
    ensures here { cell numbers.new j ≡ number }
    ensures others { (k : ℕ) → k ≢ j → cell numbers.new k ≡ cell numbers.old k }
    ensures all_fit { AllFit numbers.new }
{
    let _fits = number.num();
    numbers[j] = number;
}

/// The first cost row at the start. Overflow where a sum of a column's entries doesn't fit.
pub fn first_prices(
    alloc: Global,
    m: usize,
    c: usize,
    matrix: &SparseRatios,
) -> Result<Vec<Ratio>, NumberFault>
    requires long { length matrix.now ≡ m * c }
    requires room { c + m + 1 < 2 ^ 64 }
    ensures prices { IfOk result (λ prices. AtEachStart m c matrix.now (λ F s.
        IsListOf (c + m) (price F s (first_cost F)) prices.items)) }
    ensures all_fit { IfOk result (λ prices. AllFit prices.items) }
    ensures fits { OnOk result (AtEachStart m c matrix.now (λ F _. start_fits F ≡ true)) }
    ensures overflow { IsErrOf result NumberFault.Overflow
        → AtEachStart m c matrix.now (λ F _. start_fits F ≡ false) }
{
    let mut prices = vec![in alloc; Ratio::zero(); c + m]?;
    for i in 0..m {
        let terms = row_terms(m, c, matrix, i);
        add_row(terms, i * c, c, &mut prices)?;
    }
    negate(&mut prices, c);
    Ok(prices)
}

// Adds a row's numbers, each beside its place, to the first c sums. The first column's place is
// `from`.
fn add_row(
    terms: &[(usize, Ratio)],
    from: usize,
    c: usize,
    sums: &mut [Ratio],
) -> Result<(), RatioFault>
    requires terms { AreTerms from (from + c) terms.now }
    requires long { c ≤ length sums.old }
    requires all_fit { AllFit sums.old }
    ensures added { OnOk result
        (IsChanged (λ j x. x +ℚ number_at terms.now (from + j)) c sums.old sums.new) }
    ensures all_fit { AllFit sums.new }
    ensures fits { OnOk result ((j : ℕ) → j < c
        → sum_fits (cell sums.old j) (number_at terms.now (from + j)) ≡ true) }
    ensures refused { OnErr result ((j : ℕ) × (j < c)
        × (sum_fits (cell sums.old j) (number_at terms.now (from + j)) ≡ false)) }
{
    for term in terms {
        let j = term.0 - from;
        add_at(sums, j, &term.1)?;
    }
    Ok(())
}

// Adds an entry to the j-th sum.
fn add_at(sums: &mut [Ratio], j: usize, entry: &Ratio) -> Result<(), RatioFault>
    requires within { j < length sums.old }
    requires all_fit { AllFit sums.old }
    ensures long { length sums.new ≡ length sums.old }
    ensures fits { is_ok result ≡ sum_fits (cell sums.old j) entry.now }
    ensures here { OnOk result (cell sums.new j ≡ cell sums.old j +ℚ entry.now) }
    ensures others { (k : ℕ) → k ≢ j → cell sums.new k ≡ cell sums.old k }
    ensures all_fit { AllFit sums.new }
{
    let sum = &mut sums[j];
    add_entry(sum, entry)
}

// Adds an entry to a sum, without arithmetic where it is 0.
#[inline]
fn add_entry(sum: &mut Ratio, entry: &Ratio) -> Result<(), RatioFault>
    ensures fits { is_ok result ≡ sum_fits sum.old entry.now }
    ensures ok { OnOk result (sum.new ≡ sum.old +ℚ entry.now) }
    ensures all_fit { Fits sum.old → Fits sum.new }
{
    let _fits = sum.num();
    if entry.is_zero() {
        return Ok(());
    }
    *sum = sum.add(entry)?;
    let _fits = sum.num();
    Ok(())
}

// Negates the first c numbers.
fn negate(numbers: &mut [Ratio], c: usize)
    requires long { c ≤ length numbers.old }
    requires all_fit { AllFit numbers.old }
    ensures negated { IsChanged (λ _ x. neg_ℚ x) c numbers.old numbers.new }
    ensures all_fit { AllFit numbers.new }
{
    for j in 0..c {
        let negated = numbers[j].neg();
        let _fits = negated.num();
        numbers[j] = negated;
    }
}

/// The second cost row at the start: the costs, and 0 at each artificial column.
pub fn second_prices(alloc: Global, m: usize, costs: &[Ratio]) -> Result<Vec<Ratio>, AllocError>
    requires room { length costs.now + m + 1 < 2 ^ 64 }
    ensures prices { IfOk result (λ prices. (matrix right : List Rational) →
        let F = form_of m (length costs.now) matrix right costs.now in
        IsListOf (length costs.now + m) (second_cost F) prices.items) }
    ensures all_fit { IfOk result (λ prices. AllFit prices.items) }
{
    let mut prices = Vec::with_capacity(alloc, costs.len() + m)?;
    for cost in costs {
        let _fits = cost.num();
        prices.push(*cost)?;
    }
    prices.resize(costs.len() + m, Ratio::zero())?;
    Ok(prices)
}

/// The artificial columns, in order.
pub fn start_basis(alloc: Global, m: usize, c: usize) -> Result<Vec<usize>, AllocError>
    requires room { c + m + 1 < 2 ^ 64 }
    ensures { IfOk result (λ basis. basis.items ≡ range_with_len c m) }
{
    (c..c + m).collect(alloc)
}
