//! The sparse board.
use crate::changes::Changes;
use crate::cost_rows::CostRows;
use crate::leaving::leaving;
use crate::marking::marks_of;
use crate::marks::Marks;
use crate::pivoting::{prepare_pivot, settle_pivot};
use crate::row::Row;
use crate::scan::{first_negative, first_nonzero};
use crate::start::start_rows;
use crate::start_costs::start_costs;
use crate::step::Step;
use ratio_core::{NumberFault, Ratio};
use sparse_ratios::SparseRatios;
use std::alloc::Global;
use std::marker::Model;
use tableau_core::{CostRow, Tableau, start_basis};

/// A board of rows of whole numbers, each over one denominator, and of fractions where 64 bits are
/// not enough.
#[derive(Drop)]
pub struct Board {
    reals: usize,
    rows: Vec<Row>,
    costs: CostRows,
    // room for a pivot's new row
    step: Step,
    // where a row may have a number other than 0
    marks: Marks,
    // room for the rows that a pivot changes
    changes: Changes,
    basis: Vec<usize>,
}

impl Model for Board {
    ghost use Rattle.tableau_core.specs.BoardContents.{BoardContents};

    ghost Value = { BoardContents };

    ghost use Rattle.sparse_board.specs.Kept.{IsSparseBoardKept, contents_of};

    ghost view = { contents_of };

    ghost invariant = { IsSparseBoardKept };
}

impl Tableau for Board {
    ghost contents = { λ board. board };

    // A board of 2^32 columns finds no memory for their costs.
    fn start(
        alloc: Global,
        m: usize,
        c: usize,
        matrix: &SparseRatios,
        right: &[Ratio],
        costs: &[Ratio],
    ) -> Result<Board, NumberFault> {
        if c + m >= u32::MAX as usize {
            return Err(NumberFault::Memory);
        }
        let basis = start_basis(alloc, m, c)?;
        let changes = Changes::none(alloc, m)?;
        let rows = start_rows(alloc, m, c, matrix, right)?;
        let marks = marks_of(alloc, &rows, c + m + 1)?;
        let step = Step::zeros(alloc, c + m)?;
        let cost_rows = start_costs(alloc, m, c, matrix, costs)?;
        Ok(Board {
            reals: c,
            rows,
            costs: cost_rows,
            step,
            marks,
            changes,
            basis,
        })
    }

    fn row_count(&self) -> usize {
        self.rows.len()
    }

    fn real_count(&self) -> usize {
        self.reals
    }

    fn column_count(&self) -> usize {
        self.reals + self.rows.len()
    }

    fn entry(&self, r: usize, q: usize) -> Ratio {
        if !self.marks.has(q, r) {
            return Ratio::zero();
        }
        self.rows[r].now.number(q as u32)
    }

    fn right(&self, r: usize) -> Ratio {
        let width = self.reals + self.rows.len();
        self.rows[r].now.number(width as u32)
    }

    fn price(&self, costs: CostRow, q: usize) -> Ratio {
        match costs {
            CostRow::First => self.costs.first.now.number(q as u32),
            CostRow::Second => self.costs.second.now.number(q as u32),
        }
    }

    fn basis(&self) -> &[usize] {
        &self.basis
    }

    fn entering(&self, costs: CostRow) -> Option<usize> {
        match costs {
            CostRow::First => first_negative(&self.costs.first.now, self.reals),
            CostRow::Second => first_negative(&self.costs.second.now, self.reals),
        }
    }

    fn leaving(&self, q: usize) -> Option<usize> {
        let side = self.reals + self.rows.len();
        leaving(&self.rows, &self.basis, &self.marks, side, q)
    }

    fn swept_column(&self, r: usize) -> Option<usize> {
        first_nonzero(&self.rows[r].now, self.reals)
    }

    fn pivot(&mut self, r: usize, q: usize) -> Result<(), NumberFault> {
        prepare_pivot(
            &mut self.rows,
            &mut self.costs,
            &mut self.step,
            &mut self.marks,
            &mut self.changes,
            r,
            q as u32,
        )?;
        settle_pivot(
            &mut self.rows,
            &mut self.costs,
            &mut self.step,
            &mut self.marks,
            &self.changes,
            r,
            q as u32,
        );
        self.basis[r] = q;
        Ok(())
    }

    fn end_phase_one(&mut self) {
        self.costs.in_first = false;
    }
}
