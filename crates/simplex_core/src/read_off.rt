//! What is read off the board at the end of the trail.
ghost use Rattle.std.specs.Prelude.{◌≡◌, ◌<◌, IsTrue, IfOk, true, replicate};
ghost use Rattle.ratio_core.specs.Rational.{neg_ℚ, one_ℚ, zero_ℚ, ◌-ℚ◌};
ghost use Rattle.simplex_form.specs.Turns.{multipliers_fit};
ghost use Rattle.simplex_form.specs.declared.turn.Turn.TheVariants as turn;
ghost use Rattle.tableau_core.specs.Start.{IsListOf};
ghost use Rattle.tableau_core.specs.BoardContents.{readings_of};
ghost use Rattle.simplex_core.specs.Placed.{GivesPoint, GivesRay, artificial};
ghost use Rattle.simplex_core.specs.Steps.{ReadsTurn};

use crate::answer::{Basis, SolverAnswer};
use lists::{Memory, Sequence};
use ratio_core::{Ratio, Ratios};
use std::alloc::Global;
use tableau_core::{CostRow, Tableau};

pub(crate) fn infeasible<T: Tableau>(alloc: Global, board: &T) -> Result<SolverAnswer, Memory>
    requires first { IsTrue (T.contents board.now).in_first }
    requires fit { multipliers_fit (readings_of (T.contents board.now)) ≡ true }
    ensures { IfOk result (ReadsTurn (T.contents board.now) turn.Infeasible) }
{
    let y = first_multipliers(alloc, board)?;
    let basis = basis_of(alloc, board)?;
    Ok(SolverAnswer::Infeasible { y, basis })
}

pub(crate) fn unbounded<T: Tableau>(
    alloc: Global,
    board: &T,
    q: usize,
) -> Result<SolverAnswer, Memory>
    requires { q < (T.contents board.now).reals }
    ensures { IfOk result (ReadsTurn (T.contents board.now) (turn.Unbounded q)) }
{
    let x = point(alloc, board)?;
    let d = ray(alloc, board, q)?;
    let basis = basis_of(alloc, board)?;
    Ok(SolverAnswer::Unbounded { x, d, basis })
}

pub(crate) fn optimal<T: Tableau>(alloc: Global, board: &T) -> Result<SolverAnswer, Memory>
    ensures { IfOk result (ReadsTurn (T.contents board.now) turn.Optimal) }
{
    let x = point(alloc, board)?;
    let y = second_multipliers(alloc, board)?;
    let basis = basis_of(alloc, board)?;
    Ok(SolverAnswer::Optimal { x, y, basis })
}

pub(crate) fn basis_of<T: Tableau>(alloc: Global, board: &T) -> Result<Basis, Memory>
    ensures { IfOk result (λ basis. basis ≡ (T.contents board.now).basis) }
{
    Ok(Sequence::from_vec(Vec::from_slice(alloc, board.basis())?))
}

fn zeros(alloc: Global, n: usize) -> Result<Vec<Ratio>, Memory>
    ensures { IfOk result (λ x. x.items ≡ replicate n zero_ℚ) }
{
    Ok(vec![in alloc; Ratio::zero(); n]?)
}

// A basic column has its row's right side, and any other is 0.
fn point<T: Tableau>(alloc: Global, board: &T) -> Result<Ratios, Memory>
    ensures { IfOk result (GivesPoint (T.contents board.now)) }
{
    let c = board.real_count();
    let mut x = zeros(alloc, c)?;
    for i in 0..board.row_count() {
        let column = board.basis()[i];
        if column < c {
            x[column] = board.right(i);
        }
    }
    Ok(Sequence::from_vec(x))
}

// 1 at the entering column, and at each basic column the negated entry.
fn ray<T: Tableau>(alloc: Global, board: &T, q: usize) -> Result<Ratios, Memory>
    requires { q < (T.contents board.now).reals }
    ensures { IfOk result (GivesRay q (T.contents board.now)) }
{
    let c = board.real_count();
    let mut d = zeros(alloc, c)?;
    for i in 0..board.row_count() {
        let column = board.basis()[i];
        if column < c {
            d[column] = board.entry(i, q).neg();
        }
    }
    d[q] = Ratio::one();
    Ok(Sequence::from_vec(d))
}

// The first phase's multipliers: 1 without the price of the row's artificial column.
fn first_multipliers<T: Tableau>(alloc: Global, board: &T) -> Result<Ratios, Memory>
    requires first { IsTrue (T.contents board.now).in_first }
    requires fit { multipliers_fit (readings_of (T.contents board.now)) ≡ true }
    ensures { let R = readings_of (T.contents board.now) in
        IfOk result (IsListOf R.rows (λ k. one_ℚ -ℚ artificial R.first_price R k)) }
{
    let mut y = Vec::with_capacity(alloc, board.row_count())?;
    for j in board.real_count()..board.column_count() {
        y.push(Ratio::one().sub(&board.price(CostRow::First, j)).unwrap())?;
    }
    Ok(Sequence::from_vec(y))
}

// The second phase's: the negated price of the row's artificial column.
fn second_multipliers<T: Tableau>(alloc: Global, board: &T) -> Result<Ratios, Memory>
    ensures { let R = readings_of (T.contents board.now) in
        IfOk result (IsListOf R.rows (λ k. neg_ℚ (artificial R.second_price R k))) }
{
    let mut y = Vec::with_capacity(alloc, board.row_count())?;
    for j in board.real_count()..board.column_count() {
        y.push(board.price(CostRow::Second, j).neg())?;
    }
    Ok(Sequence::from_vec(y))
}
