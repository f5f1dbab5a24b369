//! The columns, how many cells there are, and the costs.
ghost use Rattle.std.specs.Prelude.{◌≡◌, ◌+◌, ◌-◌, ◌*◌, ◌^◌, IfOk, length, map, min, option_to_list};
ghost use Rattle.std.specs.Option.{option_copied};
ghost use Rattle.equality_form.specs.Columns.{parts_among, slack_at, slacks_from};
ghost use Rattle.equality_form.specs.EqualityForm.{costs_at};
ghost use Rattle.equality_form.specs.Equations.{slack_of};
ghost use Rattle.std_form.specs.Borrowed.{equation_in, function_in};
ghost use Rattle.std_form.specs.Indexed.{cost_in, is_greatest, is_max, objective_in};

use crate::equation::{Equation, Function, slack_of};
use crate::leaves::{Variable, push_some};
use crate::numbers::{Slack, push_numbers, width};
use lists::Memory;
use ratio_core::Ratio;
use solver_store::{LeafObjective, Sense, Set};
use std::alloc::Global;

pub(crate) fn slacks(alloc: Global, equations: &[Equation]) -> Result<Vec<Slack>, Memory>
    ensures { IfOk result (λ slacks.
        slacks.items ≡ slacks_from 0 (map equation_in equations.now)) }
{
    let mut slacks = Vec::new(alloc);
    for (i, equation) in equations.iter().enumerate() {
        push_some(&mut slacks, slack_at(i, equation.set))?;
    }
    Ok(slacks)
}

// The slack of equation i, where it has one.
fn slack_at(i: usize, set: &Set) -> Option<Slack>
    ensures { option_to_list result ≡ slack_at i (slack_of set.now) }
{
    match slack_of(set) {
        Some(taken_off) => Some((i, taken_off)),
        None => None,
    }
}

// How many columns the variables have, up to the greatest `u64`.
fn part_count(variables: &[Variable]) -> u64
    ensures { result ≡ min (length (parts_among variables.now)) (2 ^ 64 - 1) }
{
    let mut count = 0u64;
    for (_, var) in variables {
        count = count.saturating_add(width(*var));
    }
    count
}

// How many cells the board has, up to the greatest `u64`.
pub(crate) fn cell_count(variables: &[Variable], slacks: usize, equations: usize) -> u64
    ensures { result ≡ min
        (equations * (length (parts_among variables.now) + slacks + equations + 1)) (2 ^ 64 - 1) }
{
    let m = equations as u64;
    let columns = part_count(variables).saturating_add(slacks as u64);
    m.saturating_mul(columns.saturating_add(m).saturating_add(1))
}

// The costs: the objective's numbers, negated where it is to be greatest, and 0 at each slack.
pub(crate) fn costs(
    alloc: Global,
    variables: &[Variable],
    slacks: &[Slack],
    objective: Option<&LeafObjective>,
) -> Result<Vec<Ratio>, Memory>
    ensures { IfOk result (λ costs. costs.items ≡ costs_at
        (parts_among variables.now) slacks.now (cost_in (option_copied objective.entry))) }
{
    let mut costs = Vec::with_capacity(alloc, variables.len())?;
    let function = function_of(objective);
    push_numbers(&mut costs, variables, &function, is_greatest(objective))?;
    for _slack in slacks {
        costs.push(Ratio::zero())?;
    }
    Ok(costs)
}

fn function_of<'a>(objective: Option<&'a LeafObjective>) -> Function<'a>
    ensures { function_in result ≡ objective_in (option_copied objective.entry) }
{
    match objective {
        None => Function::Zero,
        Some(LeafObjective::Plain { var, .. }) => Function::Variable(*var),
        Some(LeafObjective::Affine { func, .. }) => Function::Affine(func),
    }
}

fn is_greatest(objective: Option<&LeafObjective>) -> bool
    ensures { result ≡ is_greatest (option_copied objective.entry) }
{
    match objective {
        None => false,
        Some(LeafObjective::Plain { sense, .. }) => is_max(*sense),
        Some(LeafObjective::Affine { sense, .. }) => is_max(*sense),
    }
}

fn is_max(sense: Sense) -> bool
    ensures { result ≡ is_max sense }
{
    match sense {
        Sense::Min => false,
        Sense::Max => true,
    }
}
