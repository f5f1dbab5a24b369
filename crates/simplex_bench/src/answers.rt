// What the forms lead to, mixed into one number.
ghost use Rattle.simplex_core.specs.StdForm.{IsWellShaped};

use crate::fault::BenchFault;
use crate::forms::{Size, form};
use crate::models::{Kind, model};
use ratio_core::Ratio;
use simplex_core::{Basis, SolveFault, SolverAnswer, StdForm, solve, solve_dense};
use std::alloc::Global;

// No form needs as many pivots.
const ALLOWANCE: u64 = 1_000_000;

/// The checksum of what the forms of the numbers from 1 on lead to.
pub fn checksum(alloc: Global, size: &Size, board: Board, count: u32) -> Result<u64, BenchFault> {
    let mut sum = 0u64;
    for seed in 0..count {
        let one = of_form(alloc, seed.wrapping_add(1), size, board)?;
        sum = sum.wrapping_mul(31).wrapping_add(one);
    }
    Ok(sum)
}

fn of_form(alloc: Global, seed: u32, size: &Size, board: Board) -> Result<u64, BenchFault> {
    let form = form(alloc, seed, size)?;
    digest_on(alloc, &form, board)
}

/// The board that is solved on.
#[derive(Clone, Copy)]
pub enum Board {
    Dense,
    Sparse,
}

impl Board {
    pub fn named(word: &str) -> Option<Board> {
        match word {
            "dense" => Some(Board::Dense),
            "sparse" => Some(Board::Sparse),
            _ => None,
        }
    }
}

/// The checksum of what a model leads to, which is solved this number of times.
pub fn of_model(
    alloc: Global,
    kind: Kind,
    rows: u16,
    columns: u16,
    board: Board,
    times: u32,
) -> Result<u64, BenchFault> {
    let form = model(alloc, kind, rows, columns)?;
    repeated(alloc, &form, board, times)
}

fn repeated(alloc: Global, form: &StdForm, board: Board, times: u32) -> Result<u64, BenchFault>
    requires { IsWellShaped form.now }
{
    let mut sum = 0u64;
    for _ in 0..times {
        sum = sum
            .wrapping_mul(31)
            .wrapping_add(digest_on(alloc, form, board)?);
    }
    Ok(sum)
}

fn digest_on(alloc: Global, form: &StdForm, board: Board) -> Result<u64, BenchFault>
    requires { IsWellShaped form.now }
{
    match board {
        Board::Dense => digest(&solve_dense(alloc, form, ALLOWANCE)),
        Board::Sparse => digest(&solve(alloc, form, ALLOWANCE)),
    }
}

fn digest(answer: &Result<SolverAnswer, SolveFault>) -> Result<u64, BenchFault> {
    match answer {
        Ok(SolverAnswer::Optimal { x, y, basis }) => {
            Ok(with_basis(with(with(5, x.as_slice()), y.as_slice()), basis))
        }
        Ok(SolverAnswer::Infeasible { y, basis }) => Ok(with_basis(with(7, y.as_slice()), basis)),
        Ok(SolverAnswer::Unbounded { x, d, basis }) => {
            Ok(with_basis(with(with(11, x.as_slice()), d.as_slice()), basis))
        }
        Err(SolveFault::Limit { basis, pivots }) => {
            Ok(with_basis(2, basis).wrapping_mul(31).wrapping_add(*pivots))
        }
        Err(SolveFault::Overflow { basis }) => Ok(with_basis(3, basis)),
        Err(SolveFault::Memory) => Err(BenchFault::Memory),
    }
}

// The numbers mixed into a sum.
fn with(start: u64, numbers: &[Ratio]) -> u64 {
    let mut sum = start;
    for number in numbers {
        let num = number.num();
        let sign = u64::from(num < 0);
        let digest = parts(num.unsigned_abs()) ^ parts(number.den().unsigned_abs());
        sum = sum.wrapping_mul(31).wrapping_add(digest).wrapping_add(sign);
    }
    sum
}

fn with_basis(start: u64, basis: &Basis) -> u64 {
    let mut sum = start;
    for column in basis.as_slice() {
        sum = sum.wrapping_mul(31).wrapping_add(*column as u64);
    }
    sum
}

// Both halves of a number.
fn parts(n: u128) -> u64 {
    let (low, high) = (
        (n & 0xFFFF_FFFF_FFFF_FFFF) as u64,
        (n >> 64 & 0xFFFF_FFFF_FFFF_FFFF) as u64,
    );
    low.wrapping_add(high.wrapping_mul(37))
}
