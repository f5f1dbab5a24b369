//! What is in a set, in its dual set and in its recession set, and the least product with a dual.
ghost use Rattle.std.specs.Prelude.{◌≡◌, OkIff, length};
ghost use Rattle.set_core.specs.Answers.{TellsWhere};
ghost use Rattle.set_core.specs.Membership.{In, Dual, MembershipFits, DualFits, recession, low_of, LowFits};
ghost use Rattle.set_core.specs.Shapes.{dimension_of};

use crate::cones::{all_nonnegative, all_nonpositive, all_zero, dominates_each, dominates_sum};
use crate::numbers::{at_most, first, is_between, product};
use crate::{Set, SetOverflow};
use ratio_core::Ratio;

impl Set {
    /// Whether the vector is in the set. `SetOverflow` exactly where the sum of a norm doesn't fit.
    #[tactic(auto, using(rational_laws::specs::Tests::rational_tests))]
    pub fn holds(&self, v: &[Ratio]) -> Result<bool, SetOverflow>
        requires { length v.now ≡ dimension_of self.now }
        ensures { TellsWhere result (MembershipFits self.now v.now) (In self.now v.now) }
    {
        match self {
            Set::LessThan { upper } => Ok(at_most(&first(v), upper)),
            Set::GreaterThan { lower } => Ok(at_most(lower, &first(v))),
            Set::EqualTo { value } => Ok(first(v) == *value),
            Set::Interval { lower, upper } => Ok(is_between(lower, &first(v), upper)),
            Set::Reals { .. } => Ok(true),
            Set::Zeros { .. } => Ok(all_zero(v)),
            Set::Nonnegatives { .. } => Ok(all_nonnegative(v)),
            Set::Nonpositives { .. } => Ok(all_nonpositive(v)),
            Set::NormInfinityCone { .. } => Ok(dominates_each(v)),
            Set::NormOneCone { .. } => dominates_sum(v),
        }
    }

    /// Whether the vector is in the dual set. `SetOverflow` exactly where the sum of a norm doesn't
    /// fit.
    pub fn dual_holds(&self, w: &[Ratio]) -> Result<bool, SetOverflow>
        requires { length w.now ≡ dimension_of self.now }
        ensures { TellsWhere result (DualFits self.now w.now) (Dual self.now w.now) }
    {
        match self {
            Set::LessThan { .. } => Ok(at_most(&first(w), &Ratio::zero())),
            Set::GreaterThan { .. } => Ok(at_most(&Ratio::zero(), &first(w))),
            Set::EqualTo { .. } | Set::Interval { .. } | Set::Zeros { .. } => Ok(true),
            Set::Reals { .. } => Ok(all_zero(w)),
            Set::Nonnegatives { .. } => Ok(all_nonnegative(w)),
            Set::Nonpositives { .. } => Ok(all_nonpositive(w)),
            Set::NormInfinityCone { .. } => dominates_sum(w),
            Set::NormOneCone { .. } => Ok(dominates_each(w)),
        }
    }

    /// Whether the vector is in the recession set: any vector of the set plus any nonnegative
    /// multiple of it is in the set. `SetOverflow` exactly where the sum of a norm doesn't fit.
    #[tactic(auto, using(rational_laws::specs::Tests::rational_tests))]
    pub fn recession_holds(&self, v: &[Ratio]) -> Result<bool, SetOverflow>
        requires { length v.now ≡ dimension_of self.now }
        ensures { TellsWhere result (MembershipFits self.now v.now)
            (In (recession self.now) v.now) }
    {
        let zero = Ratio::zero();
        match self {
            Set::LessThan { .. } => Ok(at_most(&first(v), &zero)),
            Set::GreaterThan { .. } => Ok(at_most(&zero, &first(v))),
            Set::EqualTo { .. } => Ok(first(v) == zero),
            Set::Interval { .. } => Ok(is_between(&zero, &first(v), &zero)),
            cone => cone.holds(v),
        }
    }

    /// The least product of a vector of the dual set with those of the set. `SetOverflow` exactly
    /// where it doesn't fit.
    #[tactic(auto, using(rational_laws::specs::Fitting::Fits_zero))]
    pub fn low(&self, w: &[Ratio]) -> Result<Ratio, SetOverflow>
        requires { length w.now ≡ dimension_of self.now }
        ensures { OkIff result (LowFits self.now w.now) (low_of self.now w.now) }
    {
        match self {
            Set::LessThan { upper } => product(upper, &first(w)),
            Set::GreaterThan { lower } => product(lower, &first(w)),
            Set::EqualTo { value } => product(value, &first(w)),
            Set::Interval { lower, upper } => {
                if Ratio::zero() <= first(w) {
                    product(lower, &first(w))
                } else {
                    product(upper, &first(w))
                }
            }
            _ => Ok(Ratio::zero()),
        }
    }
}
