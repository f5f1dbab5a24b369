// A form that is being written.
use crate::fault::BenchFault;
use ratio_core::{Ratio, RatioFault};
use sparse_ratios::SparseRatios;
use std::alloc::{AllocError, Global};

#[derive(Drop)]
pub struct Draft {
    columns: u32,
    /// How many entries the matrix has, those that are 0 among them.
    pub cells: usize,
    pub right: Vec<Ratio>,
    pub costs: Vec<Ratio>,
    /// The entries that were put, each beside its place in the matrix, row by row.
    pub terms: Vec<(usize, i64)>,
}

impl Draft {
    /// A form of zeros.
    pub fn zeros(alloc: Global, m: u16, c: u16) -> Result<Draft, AllocError> {
        let (rows, columns) = (usize::from(m), usize::from(c));
        Ok(Draft {
            columns: u32::from(c),
            cells: rows * columns,
            right: zeros(alloc, rows)?,
            costs: zeros(alloc, columns)?,
            terms: Vec::new(alloc),
        })
    }

    /// Puts an entry into the matrix.
    pub fn put(&mut self, row: u32, column: u32, entry: i64) -> Result<(), BenchFault> {
        let place = u64::from(row) * u64::from(self.columns) + u64::from(column);
        let place = place as usize;
        if column >= self.columns || place >= self.cells {
            return Err(BenchFault::Number);
        }
        self.terms.push((place, entry))?;
        Ok(())
    }

    pub fn put_cost(&mut self, column: u32, cost: i64) -> Result<(), BenchFault> {
        let place = column as usize;
        if place >= self.costs.len() {
            return Err(BenchFault::Number);
        }
        self.costs[place] = whole(cost)?;
        Ok(())
    }

    /// Adds to a right side.
    pub fn add_side(&mut self, row: u32, side: i64) -> Result<(), BenchFault> {
        let place = row as usize;
        if place >= self.right.len() {
            return Err(BenchFault::Number);
        }
        self.right[place] = self.right[place].add(&whole(side)?)?;
        Ok(())
    }
}

fn zeros(alloc: Global, count: usize) -> Result<Vec<Ratio>, AllocError> {
    let mut numbers = Vec::with_capacity(alloc, count)?;
    for _ in 0..count {
        numbers.push(Ratio::zero())?;
    }
    Ok(numbers)
}

/// The matrix of this number of cells that has these entries, each at its place. A transport puts
/// them column by column, so they are sorted first.
pub fn matrix_of(
    alloc: Global,
    cells: usize,
    mut terms: Vec<(usize, i64)>,
) -> Result<SparseRatios, BenchFault> {
    terms.sort_by_key(|term| term.0)?;
    let mut matrix = SparseRatios::with_capacity(alloc, terms.len())?;
    put_terms(&terms, &mut matrix)?;
    if matrix.len() < cells {
        matrix.pad(cells);
    }
    Ok(matrix)
}

// A place that was put twice has its first entry.
fn put_terms(terms: &[(usize, i64)], matrix: &mut SparseRatios) -> Result<(), BenchFault> {
    for term in terms {
        if term.0 >= matrix.len() {
            matrix.put(term.0, whole(term.1)?)?;
        }
    }
    Ok(())
}

/// A whole number as a fraction.
#[inline]
pub fn whole(n: i64) -> Result<Ratio, RatioFault> {
    if n == 0 {
        return Ok(Ratio::zero());
    }
    Ratio::new(i128::from(n), 1)
}
