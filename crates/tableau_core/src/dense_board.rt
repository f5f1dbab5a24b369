//! The dense board: each row is kept whole.

use crate::cost_row::CostRow;
use crate::cost_rows::CostRows;
use crate::kept::{Row, zeros};
use crate::pivoting::{prepare_pivot, settle_pivot};
use crate::places::room_for_places;
use crate::ratio_test::leaving;
use crate::scan::{first_negative, first_nonzero};
use crate::start::{first_prices, second_prices, start_basis, start_rows};
use crate::tableau::Tableau;
use ratio_core::{NumberFault, Ratio};
use sparse_ratios::SparseRatios;
use std::alloc::Global;
use std::marker::Model;

/// A board that keeps each number, those that are 0 too.
#[derive(Drop)]
pub struct DenseBoard {
    reals: usize,
    rows: Vec<Row>,
    costs: CostRows,
    // room for a pivot's new row
    step: Vec<Ratio>,
    // and for the places where it isn't 0
    places: Vec<usize>,
    basis: Vec<usize>,
}

impl Model for DenseBoard {
    ghost use Rattle.tableau_core.specs.BoardContents.{BoardContents};

    ghost Value = { BoardContents };

    ghost use Rattle.tableau_core.specs.Kept.{IsDenseBoardKept, contents_of};

    ghost view = { contents_of };

    ghost invariant = { IsDenseBoardKept };
}

impl Tableau for DenseBoard {
    ghost contents = { λ board. board };

    fn start(
        alloc: Global,
        m: usize,
        c: usize,
        matrix: &SparseRatios,
        right: &[Ratio],
        costs: &[Ratio],
    ) -> Result<DenseBoard, NumberFault> {
        let first = Row::new(alloc, first_prices(alloc, m, c, matrix)?)?;
        let second = Row::new(alloc, second_prices(alloc, m, costs)?)?;
        let rows = start_rows(alloc, m, c, matrix, right)?;
        let step = zeros(alloc, c + m + 1)?;
        let places = room_for_places(alloc, c + m + 1)?;
        let basis = start_basis(alloc, m, c)?;
        Ok(DenseBoard {
            reals: c,
            rows,
            costs: CostRows {
                in_first: true,
                first,
                second,
            },
            step,
            places,
            basis,
        })
    }

    fn row_count(&self) -> usize {
        self.rows.len()
    }

    fn real_count(&self) -> usize {
        self.reals
    }

    fn column_count(&self) -> usize {
        self.costs.second.now.len()
    }

    fn entry(&self, r: usize, q: usize) -> Ratio {
        self.rows[r].now[q]
    }

    fn right(&self, r: usize) -> Ratio {
        let row = &self.rows[r].now;
        row[row.len() - 1]
    }

    fn price(&self, costs: CostRow, q: usize) -> Ratio {
        match costs {
            CostRow::First => self.costs.first.now[q],
            CostRow::Second => self.costs.second.now[q],
        }
    }

    fn basis(&self) -> &[usize] {
        &self.basis
    }

    fn entering(&self, costs: CostRow) -> Option<usize> {
        match costs {
            CostRow::First => first_negative(&self.costs.first.now, self.reals),
            CostRow::Second => first_negative(&self.costs.second.now, self.reals),
        }
    }

    fn leaving(&self, q: usize) -> Option<usize> {
        let side = self.costs.second.now.len();
        leaving(&self.rows, &self.basis, side, q)
    }

    fn swept_column(&self, r: usize) -> Option<usize> {
        first_nonzero(&self.rows[r].now, self.reals)
    }

    fn pivot(&mut self, r: usize, q: usize) -> Result<(), NumberFault> {
        let used = prepare_pivot(
            &mut self.rows,
            &mut self.costs,
            &mut self.step,
            &mut self.places,
            r,
            q,
        )?;
        settle_pivot(
            &mut self.rows,
            &mut self.costs,
            &mut self.step,
            &self.places[..used],
            r,
            q,
        );
        self.basis[r] = q;
        Ok(())
    }

    fn end_phase_one(&mut self) {
        self.costs.in_first = false;
    }
}
