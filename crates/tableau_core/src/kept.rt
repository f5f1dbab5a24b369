//! A row of the board, with room for the row that comes after it.
ghost use Rattle.std.specs.Prelude.{◌≡◌, ℕ, ◌<◌, ◌≤◌, List, length, is_ok, IfOk, OnOk};
ghost use Rattle.ratio_core.specs.Rational.{Rational, zero_ℚ};
ghost use Rattle.tableau_core.specs.Places.{CoversNonzeros};
ghost use Rattle.tableau_core.specs.Row.{AllFit, IsLowered, IsPrepared, cell, lowering_fits};

use crate::fault::BoardOverflow;
use crate::row::{lower, put_at};
use ratio_core::Ratio;
use std::alloc::{AllocError, Global};
use std::mem;

#[derive(Drop)]
pub(crate) struct Row {
    pub(crate) now: Vec<Ratio>,
    pub(crate) next: Vec<Ratio>,
    ghost long: { length next.items ≡ length now.items },
    ghost now_fit: { AllFit now.items },
    ghost next_fit: { AllFit next.items },
}

// As many zeros: room for numbers to come.
pub(crate) fn zeros(alloc: Global, n: usize) -> Result<Vec<Ratio>, AllocError>
    ensures long { IfOk result (λ numbers. length numbers.items ≡ n) }
    ensures all_fit { IfOk result (λ numbers. AllFit numbers.items) }
    ensures zeros { IfOk result (λ numbers. (j : ℕ) → cell numbers.items j ≡ zero_ℚ) }
{
    vec![in alloc; Ratio::zero(); n]
}

impl Row {
    // A row of these numbers.
    pub(crate) fn new(alloc: Global, now: Vec<Ratio>) -> Result<Row, AllocError>
        requires { AllFit now.items }
        ensures { IfOk result (λ row. row.now.items ≡ now.items) }
    {
        let next = zeros(alloc, now.len())?;
        Ok(Row { now, next })
    }

    // Works out what a pivot on column q makes of the row, where `step` is the pivot's new row.
    pub(crate) fn prepare(
        &mut self,
        q: usize,
        step: &[Ratio],
        places: &[usize],
    ) -> Result<(), BoardOverflow>
        requires within { q < length self.old.now.items }
        requires step_long { length self.old.now.items ≤ length step.now }
        requires covers { CoversNonzeros places.now step.now }
        ensures stays { self.new.now.items ≡ self.old.now.items }
        ensures fits { is_ok result ≡ lowering_fits q step.now self.old.now.items }
        ensures ok { OnOk result (IsPrepared q step.now self.old.now.items self.new.next.items) }
    {
        let by = self.now[q];
        if by.is_zero() {
            return Ok(());
        }
        lower(&self.now, &by, step, places, &mut self.next)
    }

    // Puts in place what was worked out, at the places of the step.
    pub(crate) fn settle(&mut self, q: usize, places: &[usize])
        requires { q < length self.old.now.items }
        ensures long { length self.new.now.items ≡ length self.old.now.items }
        ensures lowered { (step : List Rational) → length self.old.now.items ≤ length step
            → CoversNonzeros places.now step
            → IsPrepared q step self.old.now.items self.old.next.items
            → IsLowered (cell self.old.now.items q) step self.old.now.items self.new.now.items }
    {
        let by = self.now[q];
        if !by.is_zero() {
            put_at(places, &self.next, &mut self.now);
        }
    }

    // Changes places with a row of as many numbers.
    pub(crate) fn exchange(&mut self, step: &mut Vec<Ratio>)
        requires long { length step.old.items ≡ length self.old.now.items }
        requires step_fits { AllFit step.old.items }
        ensures now { self.new.now.items ≡ step.old.items }
        ensures step { step.new.items ≡ self.old.now.items }
        ensures step_fits { AllFit step.new.items }
    {
        mem::swap(&mut self.now, step);
    }
}
