//! The objective of the dual as the rows leave it: their bounds less their constants.
ghost use Rattle.std.specs.Prelude.{◌≡◌, ◌++◌};
ghost use Rattle.ratio_core.specs.Answers.{ExactWhere};
ghost use Rattle.rational_laws.specs.Dot.{minus};
ghost use Rattle.certificates.specs.Points.{objective_function};
ghost use Rattle.dualization.specs.Fitting.{AllBoundsFit, EachDifferenceFits, FirstBounds, RowBoundsFit, row_start, start_sums};
ghost use Rattle.dualization.specs.Told.{TellsOfDual};

use crate::DualFault;
use crate::coefficients::{common_count, constants, push_on_parts};
use crate::fault::at_row;
use crate::sets::bounds_on;
use crate::sums::Sums;
use cert_core::component_count;
use ratio_core::{NumberFault, Ratio, Ratios};
use std::alloc::Global;
use user_model::{Objective, Row, Rows};

/// The constant of the objective, and each row's bounds less its constants.
pub(crate) fn start_sums(
    alloc: Global,
    rows: &Rows,
    objective: &Objective,
) -> Result<Sums, DualFault>
    ensures { TellsOfDual result
        (λ sums. AllBoundsFit rows.now.items × (sums ≡ start_sums rows.now.items objective.now))
        (FirstBounds rows.now.items) (λ _. ⊥) }
{
    let mut parts = Vec::new(alloc);
    for row in rows.iter() {
        match push_start(alloc, &mut parts, row) {
            Ok(()) => {}
            Err(NumberFault::Overflow) => return Err(at_row(row)),
            Err(NumberFault::Memory) => return Err(DualFault::Memory),
        }
    }
    Ok(Sums {
        constant: constant_of(objective),
        parts: Ratios::from_vec(parts),
    })
}

#[tactic(auto, using(cert_core::proofs::Evaluated::constants_of))]
fn constant_of(objective: &Objective) -> Ratio
    ensures { result ≡ (objective_function objective.now).constant }
{
    match objective {
        Objective::Feasibility => Ratio::zero(),
        Objective::Plain { .. } => Ratio::zero(),
        Objective::Affine { func, .. } => func.constant(),
    }
}

// Appends a row's bounds less its constants.
fn push_start(alloc: Global, parts: &mut Vec<Ratio>, row: &Row) -> Result<(), NumberFault>
    ensures { ExactWhere result (RowBoundsFit row.now)
        (λ _. parts.new.items ≡ parts.old.items ++ row_start row.now) }
{
    let bounds = bounds_on(alloc, &row.set, component_count(&row.func))?;
    let own = constants(alloc, &row.func)?;
    let mut others = Vec::new(alloc);
    push_on_parts(&mut others, &row.set, own.as_slice())?;
    push_differences(parts, bounds.as_slice(), others.as_slice())
}

// Appends the differences of what is at equal places.
fn push_differences(
    parts: &mut Vec<Ratio>,
    first: &[Ratio],
    second: &[Ratio],
) -> Result<(), NumberFault>
    ensures { ExactWhere result (EachDifferenceFits first.now second.now)
        (λ _. parts.new.items ≡ parts.old.items ++ minus first.now second.now) }
{
    let count = common_count(first, second);
    for i in 0..count {
        let difference = first[i].sub(&second[i])?;
        parts.push(difference)?;
    }
    Ok(())
}
