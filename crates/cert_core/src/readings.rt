//! What is read of a function: its value at a point, or its slope along a ray.
ghost use Rattle.std.specs.Prelude.{◌≡◌, length};
ghost use Rattle.ratio_core.specs.Answers.{ExactWhere};
ghost use Rattle.aff_core.specs.Address.{address_cmp};
ghost use Rattle.aff_core.specs.Function.{evaluated, variable};
ghost use Rattle.set_core.specs.Membership.{In, MembershipFits};
ghost use Rattle.set_core.specs.Mirrored.{multiplied};
ghost use Rattle.set_core.specs.Shapes.{dimension_of};
ghost use Rattle.cert_core.specs.Answers.{TellsWhereFits};
ghost use Rattle.cert_core.specs.Folds.{EvaluationFits};
ghost use Rattle.cert_core.specs.Readings.{one_of};
ghost use Rattle.cert_core.specs.Points.{numbers_in};

use crate::point::ModelPoint;
use crate::sums::plus_terms;
use aff_core::{Address, Aff};
use ratio_core::{NumberFault, Ratio};
use set_core::Set;

/// The value at a point, or the slope along a ray.
#[derive(Clone, Copy)]
pub enum ValueOrSlope {
    Value,
    Slope,
}

impl ValueOrSlope {
    /// The function's value or slope.
    pub fn of_function(self, f: &Aff, at: &ModelPoint) -> Result<Ratio, NumberFault>
        ensures { let x = numbers_in at.now in
            ExactWhere result (EvaluationFits (one_of self) f.now x)
            (λ q. q ≡ evaluated (one_of self) f.now x) }
    {
        match self {
            ValueOrSlope::Value => plus_terms(&f.constant(), f.terms(), at),
            ValueOrSlope::Slope => plus_terms(&Ratio::zero(), f.terms(), at),
        }
    }

    /// The value or the slope of the function that is a variable.
    pub fn of_variable(self, var: &Address, at: &ModelPoint) -> Result<Ratio, NumberFault>
        ensures { let x = numbers_in at.now in
            ExactWhere result (EvaluationFits (one_of self) (variable var.now) x)
            (λ q. q ≡ evaluated {R = address_cmp} (one_of self) (variable var.now) x) }
    {
        plus_terms(&Ratio::zero(), &[(*var, Ratio::one())], at)
    }

    /// Whether values are in a set, or slopes in its recession set.
    pub fn holds(self, set: &Set, v: &[Ratio]) -> Result<bool, NumberFault>
        requires { length v.now ≡ dimension_of set.now }
        ensures { TellsWhereFits result (MembershipFits set.now v.now)
            (In (multiplied (one_of self) set.now) v.now) }
    {
        match self {
            ValueOrSlope::Value => Ok(set.holds(v)?),
            ValueOrSlope::Slope => Ok(set.recession_holds(v)?),
        }
    }
}
