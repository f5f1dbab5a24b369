//! The duals of variables: what the rows, and the objective, leave for them.
ghost use Rattle.std.specs.Prelude.{◌≡◌, All, IfOk, length, map};
ghost use Rattle.aff_core.specs.Function.{coefficient};
ghost use Rattle.certificates.specs.Duals as dual;
ghost use Rattle.certificates.specs.Points.{objective_function, sense_of};
ghost use Rattle.cert_core.specs.Checked.{HasRowDuals};
ghost use Rattle.cert_core.specs.Folds.{AddUp, CostFits, adjoint_parts};
ghost use Rattle.cert_core.specs.Variables.{Ascend};
ghost use Rattle.dual_laws.specs.Held.{adjoint};
ghost use Rattle.ratio_core.specs.Folds.{sum_from};
ghost use Rattle.ratio_core.specs.Rational.{neg_ℚ, zero_ℚ};
ghost use Rattle.ratio_core.specs.Answers.{ExactWhere};
ghost use Rattle.adjoint_core.specs.Prefix.{IsAsFarAs};
ghost use Rattle.adjoint_core.specs.Told.{FirstNot, TellsCarried, TellsCarriedAt};

use crate::BackFault;
use aff_core::Address;
use cert_core::{Variables, adjoint_of_rows, cost, reduced_cost, sense};
use lists::Memory;
use ratio_core::{NumberFault, Ratio, Ratios};
use std::alloc::Global;
use user_model::{Objective, Rows};

/// What rows and objective leave for each variable.
pub(crate) fn reduced_costs(
    alloc: Global,
    objective: &Objective,
    users: &Variables,
    rows: &Rows,
    duals: &[Ratios],
) -> Result<Vec<Ratio>, BackFault>
    requires { HasRowDuals rows.now.items duals.now }
    ensures { let hs = dual.rows_with duals.now rows.now.items in
        let sense = sense_of objective.now in
        let cost = coefficient (objective_function objective.now) in
        TellsCarried result
        (All (λ v. AddUp zero_ℚ (adjoint_parts hs v) × CostFits sense (cost v) (adjoint hs v))
        users.now)
        (λ vars. vars.items ≡ map (λ v. dual.reduced_cost sense (cost v) (adjoint hs v)) users.now)
        (FirstNot
        (λ v. AddUp zero_ℚ (adjoint_parts hs v) × CostFits sense (cost v) (adjoint hs v)) (λ v. v)
        users.now) }
{
    let sums = adjoints(alloc, users, rows, duals)?;
    let mut costs = Vec::with_capacity(alloc, sums.len())?;
    for (i, user) in users.addresses().iter().enumerate() {
        let Some(sum) = sums.get(i) else {
            return Err(BackFault::Overflow { at: *user });
        };
        costs.push(cost_left(objective, user, sum)?)?;
    }
    Ok(costs)
}

fn cost_left(objective: &Objective, user: &Address, adjoint: &Ratio) -> Result<Ratio, BackFault>
    ensures { let sense = sense_of objective.now in
        let cost = coefficient (objective_function objective.now) user.now in
        TellsCarriedAt result (CostFits sense cost adjoint.now)
        (λ q. q ≡ dual.reduced_cost sense cost adjoint.now) user.now }
{
    match reduced_cost(sense(objective), &cost(objective, user), adjoint) {
        Ok(left) => Ok(left),
        Err(fault) => Err(BackFault::of_number(user, fault)),
    }
}

/// What cancels the rows' adjoint of each variable.
pub(crate) fn cancelling(
    alloc: Global,
    users: &Variables,
    rows: &Rows,
    duals: &[Ratios],
) -> Result<Vec<Ratio>, BackFault>
    requires { HasRowDuals rows.now.items duals.now }
    ensures { let hs = dual.rows_with duals.now rows.now.items in
        TellsCarried result (All (λ v. AddUp zero_ℚ (adjoint_parts hs v)) users.now)
        (λ vars. vars.items ≡ map (λ v. neg_ℚ (adjoint hs v)) users.now)
        (FirstNot (λ v. AddUp zero_ℚ (adjoint_parts hs v)) (λ v. v) users.now) }
{
    let sums = adjoints(alloc, users, rows, duals)?;
    let mut vars = Vec::with_capacity(alloc, sums.len())?;
    for (i, user) in users.addresses().iter().enumerate() {
        let Some(sum) = sums.get(i) else {
            return Err(BackFault::Overflow { at: *user });
        };
        vars.push(sum.neg())?;
    }
    Ok(vars)
}

// The rows' adjoints of the variables, up to the first whose sum doesn't fit.
fn adjoints(
    alloc: Global,
    users: &Variables,
    rows: &Rows,
    duals: &[Ratios],
) -> Result<Vec<Ratio>, Memory>
    requires { HasRowDuals rows.now.items duals.now }
    ensures { let parts = adjoint_parts (dual.rows_with duals.now rows.now.items) in
        IfOk result (λ sums. IsAsFarAs (λ v. AddUp zero_ℚ (parts v))
        (λ v. sum_from zero_ℚ (parts v)) users.now sums.items) }
{
    match adjoint_of_rows(alloc, users, rows, duals) {
        Ok(sums) => Ok(sums),
        Err(NumberFault::Overflow) => up_to_unfit(alloc, users.addresses(), rows, duals),
        Err(NumberFault::Memory) => Err(Memory),
    }
}

// The same where one doesn't fit, which is found by halves: so each row is read as often as there
// are halves, and not for each variable.
fn up_to_unfit(
    alloc: Global,
    users: &[Address],
    rows: &Rows,
    duals: &[Ratios],
) -> Result<Vec<Ratio>, Memory>
    requires ascend { Ascend users.now }
    requires duals { HasRowDuals rows.now.items duals.now }
    requires unfit { let parts = adjoint_parts (dual.rows_with duals.now rows.now.items) in
        ¬ (All (λ v. AddUp zero_ℚ (parts v)) users.now) }
    ensures { let parts = adjoint_parts (dual.rows_with duals.now rows.now.items) in
        IfOk result (λ sums. IsAsFarAs (λ v. AddUp zero_ℚ (parts v))
        (λ v. sum_from zero_ℚ (parts v)) users.now sums.items) }
{
    let mut sums = Vec::new(alloc);
    let mut end = users.len();
    while sums.len() + 1 < end {
        let middle = sums.len() + (end - sums.len()) / 2;
        match adjoints_of(alloc, &users[..middle], rows, duals) {
            Ok(more) => sums = more,
            Err(NumberFault::Overflow) => end = middle,
            Err(NumberFault::Memory) => return Err(Memory),
        }
    }
    Ok(sums)
}

fn adjoints_of(
    alloc: Global,
    users: &[Address],
    rows: &Rows,
    duals: &[Ratios],
) -> Result<Vec<Ratio>, NumberFault>
    requires ascend { Ascend users.now }
    requires duals { HasRowDuals rows.now.items duals.now }
    ensures { let parts = adjoint_parts (dual.rows_with duals.now rows.now.items) in
        ExactWhere result (All (λ v. AddUp zero_ℚ (parts v)) users.now)
        (λ sums. sums.items ≡ map (λ v. sum_from zero_ℚ (parts v)) users.now) }
{
    let variables = Variables::ascending(Vec::from_slice(alloc, users)?);
    adjoint_of_rows(alloc, &variables, rows, duals)
}
