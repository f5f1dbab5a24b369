//! What is read of an objective. A model without one seeks the least value of 0.
ghost use Rattle.std.specs.Prelude.{◌≡◌};
ghost use Rattle.ratio_core.specs.Answers.{ExactWhere};
ghost use Rattle.aff_core.specs.Address.{address_cmp};
ghost use Rattle.aff_core.specs.Function.{coefficient, evaluated, variable};
ghost use Rattle.certificates.specs.Points.{objective_function, sense_of};
ghost use Rattle.cert_core.specs.Folds.{EvaluationFits};
ghost use Rattle.cert_core.specs.Readings.{one_of};
ghost use Rattle.cert_core.specs.Points.{numbers_in};

use crate::point::ModelPoint;
use crate::readings::ValueOrSlope;
use aff_core::Address;
use ratio_core::{NumberFault, Ratio};
use user_model::{Objective, Sense};

/// The objective's sense.
pub fn sense(objective: &Objective) -> Sense
    ensures { result ≡ sense_of objective.now }
{
    match objective {
        Objective::Feasibility => Sense::Min,
        Objective::Plain { sense, .. } | Objective::Affine { sense, .. } => *sense,
    }
}

#[tactic(auto, using(crate::proofs::Evaluated::constants_of))]
pub(crate) fn constant(objective: &Objective) -> Ratio
    ensures { result ≡ (objective_function objective.now).constant }
{
    match objective {
        Objective::Feasibility => Ratio::zero(),
        Objective::Plain { .. } => Ratio::zero(),
        Objective::Affine { func, .. } => func.constant(),
    }
}

/// The coefficient of a variable.
#[tactic(auto, using(crate::proofs::Evaluated::coefficient_of_constant))]
pub fn cost(objective: &Objective, at: &Address) -> Ratio
    ensures { result ≡ coefficient (objective_function objective.now) at.now }
{
    match objective {
        Objective::Feasibility => Ratio::zero(),
        Objective::Plain { var, .. } => unit(var, at),
        Objective::Affine { func, .. } => func.coef(at),
    }
}

// 1 at a variable, and 0 elsewhere.
#[tactic(auto, using(linear_laws::specs::ListLaws::coefficient_variable))]
fn unit(var: &Address, at: &Address) -> Ratio
    ensures { result ≡ coefficient {R = address_cmp} (variable var.now) at.now }
{
    if at == var {
        Ratio::one()
    } else {
        Ratio::zero()
    }
}

/// The objective's value at a point, or its slope along a ray.
pub fn reading_of(
    objective: &Objective,
    reading: ValueOrSlope,
    at: &ModelPoint,
) -> Result<Ratio, NumberFault>
    ensures { let x = numbers_in at.now in
        ExactWhere result
        (EvaluationFits (one_of reading) (objective_function objective.now) x)
        (λ q. q ≡ evaluated (one_of reading) (objective_function objective.now) x) }
{
    match objective {
        Objective::Feasibility => Ok(Ratio::zero()),
        Objective::Plain { var, .. } => reading.of_variable(var, at),
        Objective::Affine { func, .. } => reading.of_function(func, at),
    }
}
