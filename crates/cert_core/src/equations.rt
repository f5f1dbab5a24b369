//! Whether the variables' duals are what the objective and the rows leave for them.
ghost use Rattle.std.specs.Prelude.{◌≡◌, All, length, map};
ghost use Rattle.ratio_core.specs.Rational.{Rational, SumFits, zero_ℚ, ◌+ℚ◌};
ghost use Rattle.ratio_core.specs.Answers.{ExactWhere};
ghost use Rattle.aff_core.specs.Address.{Address};
ghost use Rattle.aff_core.specs.Function.{coefficient};
ghost use Rattle.certificates.specs.Duals as dual;
ghost use Rattle.certificates.specs.Points.{objective_function, sense_of};
ghost use Rattle.cert_core.specs.Answers.{TellsWhereFits};
ghost use Rattle.cert_core.specs.Folds.{CostFits, DualValueFits};

use crate::objective::{cost, sense};
use aff_core::Address;
use ratio_core::{NumberFault, Ratio};
use user_model::{Objective, Sense};

/// Whether each variable's dual is its reduced cost.
pub(crate) fn are_reduced_costs(
    objective: &Objective,
    variables: &[Address],
    adjoint: &[Ratio],
    duals: &[Ratio],
) -> Result<bool, NumberFault>
    requires adjoint { length adjoint.now ≡ length variables.now }
    requires duals { length duals.now ≡ length variables.now }
    ensures { (a w : Address → Rational) → map a variables.now ≡ adjoint.now
        → map w variables.now ≡ duals.now
        → TellsWhereFits result
        (All (λ v. CostFits (sense_of objective.now)
        (coefficient (objective_function objective.now) v) (a v)) variables.now)
        (All (λ v. w v ≡ dual.reduced_cost (sense_of objective.now)
        (coefficient (objective_function objective.now) v) (a v)) variables.now) }
{
    let mut all = true;
    for (i, variable) in variables.iter().enumerate() {
        let left = reduced_cost(sense(objective), &cost(objective, variable), &adjoint[i])?;
        let holds = duals[i] == left;
        all &= holds;
    }
    Ok(all)
}

/// What the objective's coefficient and the rows' adjoint leave for a variable's dual.
pub fn reduced_cost(sense: Sense, cost: &Ratio, adjoint: &Ratio) -> Result<Ratio, NumberFault>
    ensures { ExactWhere result (CostFits sense cost.now adjoint.now)
        (λ q. q ≡ dual.reduced_cost sense cost.now adjoint.now) }
{
    match sense {
        Sense::Min => Ok(cost.sub(adjoint)?),
        Sense::Max => Ok(cost.add(adjoint)?.neg()),
    }
}

/// Whether each variable's dual is the adjoint negated.
pub(crate) fn cancel(
    variables: &[Address],
    adjoint: &[Ratio],
    duals: &[Ratio],
) -> Result<bool, NumberFault>
    requires adjoint { length adjoint.now ≡ length variables.now }
    requires duals { length duals.now ≡ length variables.now }
    ensures { (a w : Address → Rational) → map a variables.now ≡ adjoint.now
        → map w variables.now ≡ duals.now
        → TellsWhereFits result
        (All (λ v. SumFits (a v) (w v)) variables.now)
        (All (λ v. a v +ℚ w v ≡ zero_ℚ) variables.now) }
{
    let mut all = true;
    for i in 0..variables.len() {
        let sum = adjoint[i].add(&duals[i])?;
        let holds = sum.is_zero();
        all &= holds;
    }
    Ok(all)
}

/// The objective of the duals.
pub(crate) fn dual_value(sense: Sense, constant: &Ratio, gap: &Ratio) -> Result<Ratio, NumberFault>
    ensures { ExactWhere result (DualValueFits sense constant.now gap.now)
        (λ q. q ≡ dual.dual_value sense constant.now gap.now) }
{
    match sense {
        Sense::Min => Ok(constant.add(gap)?),
        Sense::Max => Ok(constant.sub(gap)?),
    }
}
