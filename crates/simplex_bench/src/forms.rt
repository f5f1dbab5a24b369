// Generated forms, each with a point that meets its rows.
ghost use Rattle.std.specs.Prelude.{◌<◌, ◌↔◌, All, IfOk, IsTrue};
ghost use Rattle.ratio_core.specs.Rational.{zero_ℚ, ◌≤ℚ◌};
ghost use Rattle.simplex_core.specs.StdForm.{IsWellShaped};

use crate::draft::whole;
use crate::draw::Draw;
use crate::fault::BenchFault;
use lists::Sequence;
use ratio_core::Ratio;
use simplex_core::StdForm;
use sparse_ratios::SparseRatios;
use std::alloc::{AllocError, Global};

/// How large the forms and their entries are. One entry in `sparse` is drawn from `-greatest` to
/// `greatest`, and the others are 0.
#[derive(Clone, Copy)]
pub struct Size {
    pub rows: u16,
    pub columns: u16,
    pub sparse: u16,
    pub greatest: u16,
}

/// The form that a number draws. The point that is drawn first meets its rows, each negated where
/// its right side would be below 0.
pub fn form(alloc: Global, seed: u32, size: &Size) -> Result<StdForm, BenchFault>
    ensures { IfOk result IsWellShaped }
{
    let mut draw = Draw::new(seed);
    let (m, c) = (usize::from(size.rows), usize::from(size.columns));
    let point = numbers(alloc, &mut draw, c, 4)?;
    let costs = drawn_costs(alloc, &mut draw, c)?;
    let cells = m.checked_mul(c).ok_or(BenchFault::Number)?;
    let mut matrix = SparseRatios::with_capacity(alloc, cells)?;
    let mut right = Vec::with_capacity(alloc, m)?;
    put_rows(alloc, &mut draw, size, &point, &mut matrix, &mut right)?;
    checked(alloc, m, c, matrix, right, costs)
}

fn put_rows(
    alloc: Global,
    draw: &mut Draw,
    size: &Size,
    point: &[i64],
    matrix: &mut SparseRatios,
    right: &mut Vec<Ratio>,
) -> Result<(), BenchFault> {
    let mut row = Vec::with_capacity(alloc, usize::from(size.columns))?;
    for _ in 0..size.rows {
        draw_row(draw, size, &mut row)?;
        put_row(&row, side(&row, point), matrix, right)?;
    }
    Ok(())
}

fn put_row(
    row: &[i64],
    side: i64,
    matrix: &mut SparseRatios,
    right: &mut Vec<Ratio>,
) -> Result<(), BenchFault> {
    for entry in row {
        let place = matrix.len();
        matrix.put(place, whole(turned(*entry, side))?)?;
    }
    right.push(whole(turned(side, side))?)?;
    Ok(())
}

// The number of a row whose right side would be below 0 is negated.
fn turned(number: i64, side: i64) -> i64 {
    if side < 0 {
        number.wrapping_neg()
    } else {
        number
    }
}

/// The form of these numbers, where each list has its length and no right side is below 0.
pub fn checked(
    alloc: Global,
    m: usize,
    c: usize,
    matrix: SparseRatios,
    right: Vec<Ratio>,
    costs: Vec<Ratio>,
) -> Result<StdForm, BenchFault>
    ensures { IfOk result IsWellShaped }
{
    let flips = Vec::from_elem(alloc, false, m)?;
    let cells = m.checked_mul(c).ok_or(BenchFault::Number)?;
    if matrix.len() != cells || right.len() != m || costs.len() != c || !are_sides(&right) {
        return Err(BenchFault::Number);
    }
    Ok(StdForm {
        m,
        c,
        matrix,
        right: Sequence::from_vec(right),
        costs: Sequence::from_vec(costs),
        flips: Sequence::from_vec(flips),
    })
}

fn are_sides(right: &[Ratio]) -> bool
    ensures { IsTrue result ↔ All (λ b. zero_ℚ ≤ℚ b) right.now }
{
    right.iter().all(|b| is_side(b))
}

#[tactic(auto, using(rational_laws::specs::Tests::rational_tests))]
fn is_side(b: &Ratio) -> bool
    ensures { IsTrue result ↔ (zero_ℚ ≤ℚ b.now) }
{
    *b >= Ratio::zero()
}

// Numbers below n.
fn numbers(alloc: Global, draw: &mut Draw, count: usize, n: u32) -> Result<Vec<i64>, AllocError>
    requires { 0 < n }
{
    let mut drawn = Vec::with_capacity(alloc, count)?;
    for _ in 0..count {
        drawn.push(i64::from(draw.below(n)))?;
    }
    Ok(drawn)
}

// Whole numbers below 9.
fn drawn_costs(alloc: Global, draw: &mut Draw, count: usize) -> Result<Vec<Ratio>, BenchFault> {
    let mut costs = Vec::with_capacity(alloc, count)?;
    for _ in 0..count {
        costs.push(whole(i64::from(draw.below(9)))?)?;
    }
    Ok(costs)
}

// Draws the entries of a row.
fn draw_row(draw: &mut Draw, size: &Size, row: &mut Vec<i64>) -> Result<(), BenchFault> {
    let span = 2 * u32::from(size.greatest) + 1;
    row.clear();
    for _ in 0..size.columns {
        let stands = size.sparse == 0 || draw.below(u32::from(size.sparse)) == 0;
        let number = i64::from(draw.below(span)).wrapping_sub(i64::from(size.greatest));
        row.push(if stands { number } else { 0 })?;
    }
    Ok(())
}

// The row times the point.
fn side(row: &[i64], point: &[i64]) -> i64 {
    let mut sum = 0i64;
    for (entry, x) in row.iter().zip(point) {
        sum = sum.wrapping_add(entry.wrapping_mul(*x));
    }
    sum
}
