//! The objective of the dual as the variables are moved to the bounds that they have.
ghost use Rattle.std.specs.Prelude.{◌≡◌};
ghost use Rattle.ratio_core.specs.Answers.{ExactWhere};
ghost use Rattle.rational_laws.specs.Dot.{minus, times};
ghost use Rattle.dualization.specs.Fitting.{FirstMove, MoveFits, MovesFit, MultipleFits, after_move, after_moves, moves, moves_to, own_moves};
ghost use Rattle.dualization.specs.Told.{TellsOfDual};

use crate::DualFault;
use crate::coefficients::{column_in, common_count};
use crate::fault::at_variable;
use crate::sets::lone_bound;
use crate::sums::Sums;
use aff_core::{Address, Root};
use cert_core::cost;
use ratio_core::{NumberFault, Ratio, Ratios};
use std::alloc::Global;
use user_model::{Group, GroupVar, Groups, Objective, Rows};

/// The sums, as each variable is moved to the one bound that its creation set has.
pub(crate) fn move_groups(
    alloc: Global,
    rows: &Rows,
    objective: &Objective,
    groups: &Groups,
    sums: Sums,
) -> Result<Sums, DualFault>
    ensures { let all = moves groups.now.items in
        TellsOfDual result (λ new. MovesFit rows.now.items objective.now all sums
        × (new ≡ after_moves rows.now.items objective.now all sums))
        (λ _. ⊥) (FirstMove rows.now.items objective.now all sums) }
{
    let mut now = sums;
    for group in groups.iter() {
        now = move_group(alloc, rows, objective, group, now)?;
    }
    Ok(now)
}

fn move_group(
    alloc: Global,
    rows: &Rows,
    objective: &Objective,
    group: &Group,
    sums: Sums,
) -> Result<Sums, DualFault>
    ensures { let all = own_moves group.now in
        TellsOfDual result (λ new. MovesFit rows.now.items objective.now all sums
        × (new ≡ after_moves rows.now.items objective.now all sums))
        (λ _. ⊥) (FirstMove rows.now.items objective.now all sums) }
{
    match lone_bound(&group.set) {
        Some(bound) => move_each(alloc, rows, objective, group.vars.as_slice(), &bound, sums),
        None => Ok(sums),
    }
}

fn move_each(
    alloc: Global,
    rows: &Rows,
    objective: &Objective,
    vars: &[GroupVar],
    bound: &Ratio,
    sums: Sums,
) -> Result<Sums, DualFault>
    ensures { let all = moves_to vars.now bound.now in
        TellsOfDual result (λ new. MovesFit rows.now.items objective.now all sums
        × (new ≡ after_moves rows.now.items objective.now all sums))
        (λ _. ⊥) (FirstMove rows.now.items objective.now all sums) }
{
    let mut now = sums;
    for var in vars {
        match move_one(alloc, rows, objective, var, bound, &now) {
            Ok(next) => now = next,
            Err(NumberFault::Overflow) => return Err(at_variable(var)),
            Err(NumberFault::Memory) => return Err(DualFault::Memory),
        }
    }
    Ok(now)
}

fn move_one(
    alloc: Global,
    rows: &Rows,
    objective: &Objective,
    var: &GroupVar,
    bound: &Ratio,
    sums: &Sums,
) -> Result<Sums, NumberFault>
    ensures { ExactWhere result (MoveFits rows.now.items objective.now (var.now, bound.now) sums.now)
        (λ new. new ≡ after_move rows.now.items objective.now (var.now, bound.now) sums.now) }
{
    let address = Address::root(Root::Variable, var.number);
    let product = cost(objective, &address).mul(bound)?;
    let constant = sums.constant.add(&product)?;
    let column = column_in(alloc, rows, &address)?;
    let parts = less_multiple(alloc, sums.parts.as_slice(), bound, column.as_slice())?;
    Ok(Sums {
        constant,
        parts: Ratios::from_vec(parts),
    })
}

// The numbers less a multiple of others.
fn less_multiple(
    alloc: Global,
    numbers: &[Ratio],
    by: &Ratio,
    others: &[Ratio],
) -> Result<Vec<Ratio>, NumberFault>
    ensures { ExactWhere result (MultipleFits by.now numbers.now others.now)
        (λ v. v.items ≡ minus numbers.now (times by.now others.now)) }
{
    let count = common_count(numbers, others);
    let mut left = Vec::with_capacity(alloc, count)?;
    for i in 0..count {
        let product = by.mul(&others[i])?;
        let difference = numbers[i].sub(&product)?;
        left.push(difference)?;
    }
    Ok(left)
}
