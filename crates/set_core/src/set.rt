//! The sets that functions may be in, with what their types, dimensions and bounds are.
ghost use Rattle.std.specs.Prelude.{◌≡◌, ◌↔◌, IfOk, IsTrue, false};
ghost use Rattle.set_core.specs.Shapes.{dimension_of, has_bad_dimension, is_crossed, is_norm_cone, is_scalar, lower_bound, resized, same_type, type_of, upper_bound};

use crate::SetType;
use ratio_core::{Memory, Ratio};
use std::alloc::Global;

/// A set of numbers or of vectors of numbers.
#[derive(Debug, Drop, PartialEq, Eq)]
pub enum Set {
    /// The numbers up to a bound.
    LessThan { upper: Ratio },
    /// The numbers from a bound on.
    GreaterThan { lower: Ratio },
    EqualTo { value: Ratio },
    Interval { lower: Ratio, upper: Ratio },
    Reals { dimension: u32 },
    Zeros { dimension: u32 },
    Nonnegatives { dimension: u32 },
    Nonpositives { dimension: u32 },
    /// The first number is at least the magnitude of each other.
    NormInfinityCone { dimension: u32 },
    /// The first number is at least the sum of the magnitudes of the others.
    NormOneCone { dimension: u32 },
}

impl Set {
    /// An equal set.
    pub fn copy(&self, _alloc: Global) -> Result<Set, Memory>
        ensures { IfOk result (λ set. set ≡ self.now) }
    {
        Ok(match self {
            Set::LessThan { upper } => Set::LessThan { upper: *upper },
            Set::GreaterThan { lower } => Set::GreaterThan { lower: *lower },
            Set::EqualTo { value } => Set::EqualTo { value: *value },
            Set::Interval { lower, upper } => Set::Interval {
                lower: *lower,
                upper: *upper,
            },
            vectors => vectors.with_dimension(vectors.dimension()),
        })
    }

    /// The set for this number of components: a set of vectors gets it as its dimension, and a set
    /// of numbers stays. More components than a dimension counts find no memory.
    pub fn resized(&self, alloc: Global, components: usize) -> Result<Set, Memory>
        ensures { IfOk result (λ set. set ≡ resized components self.now) }
    {
        if self.is_scalar() {
            return self.copy(alloc);
        }
        match u32::try_from(components) {
            Ok(dimension) => Ok(self.with_dimension(dimension)),
            Err(_) => Err(Memory),
        }
    }

    // The set of vectors with another dimension.
    fn with_dimension(&self, dimension: u32) -> Set
        requires { is_scalar self.now ≡ false }
        ensures { result ≡ resized dimension self.now }
    {
        match self {
            Set::Reals { .. } => Set::Reals { dimension },
            Set::Zeros { .. } => Set::Zeros { dimension },
            Set::Nonnegatives { .. } => Set::Nonnegatives { dimension },
            Set::Nonpositives { .. } => Set::Nonpositives { dimension },
            Set::NormInfinityCone { .. } => Set::NormInfinityCone { dimension },
            Set::NormOneCone { .. } => Set::NormOneCone { dimension },
            _ => unreachable!(),
        }
    }

    /// What the set is apart from its numbers.
    pub fn set_type(&self) -> SetType
        ensures { result ≡ type_of self.now }
    {
        match self {
            Set::LessThan { .. } => SetType::LessThan,
            Set::GreaterThan { .. } => SetType::GreaterThan,
            Set::EqualTo { .. } => SetType::EqualTo,
            Set::Interval { .. } => SetType::Interval,
            Set::Reals { .. } => SetType::Reals,
            Set::Zeros { .. } => SetType::Zeros,
            Set::Nonnegatives { .. } => SetType::Nonnegatives,
            Set::Nonpositives { .. } => SetType::Nonpositives,
            Set::NormInfinityCone { .. } => SetType::NormInfinityCone,
            Set::NormOneCone { .. } => SetType::NormOneCone,
        }
    }

    /// Whether the set is of the type of another.
    pub fn has_type_of(&self, other: &Set) -> bool
        ensures value { result ≡ same_type self.now other.now }
        ensures meaning { IsTrue result ↔ (type_of self.now ≡ type_of other.now) }
    {
        self.set_type() == other.set_type()
    }

    /// The length of the set's vectors, which is 1 for a set of numbers.
    pub fn dimension(&self) -> u32
        ensures { result ≡ dimension_of self.now }
    {
        match self {
            Set::Reals { dimension } | Set::Zeros { dimension } => *dimension,
            Set::Nonnegatives { dimension } | Set::Nonpositives { dimension } => *dimension,
            Set::NormInfinityCone { dimension } | Set::NormOneCone { dimension } => *dimension,
            _ => 1,
        }
    }

    /// Whether it is a set of numbers, and not of vectors.
    pub fn is_scalar(&self) -> bool
        ensures { result ≡ is_scalar self.now }
    {
        matches!(
            self,
            Set::LessThan { .. }
                | Set::GreaterThan { .. }
                | Set::EqualTo { .. }
                | Set::Interval { .. }
        )
    }

    /// Whether it is one of the two norm cones, `NormInfinityCone` and `NormOneCone`.
    pub fn is_norm_cone(&self) -> bool
        ensures { result ≡ is_norm_cone self.now }
    {
        matches!(self, Set::NormInfinityCone { .. } | Set::NormOneCone { .. })
    }

    /// The bound below, if it is a set of numbers with one.
    pub fn lower_bound(&self) -> Option<Ratio>
        ensures { result ≡ lower_bound self.now }
    {
        match self {
            Set::GreaterThan { lower } | Set::Interval { lower, .. } => Some(*lower),
            Set::EqualTo { value } => Some(*value),
            _ => None,
        }
    }

    /// The bound above, if it is a set of numbers with one.
    pub fn upper_bound(&self) -> Option<Ratio>
        ensures { result ≡ upper_bound self.now }
    {
        match self {
            Set::LessThan { upper } | Set::Interval { upper, .. } => Some(*upper),
            Set::EqualTo { value } => Some(*value),
            _ => None,
        }
    }

    /// Whether a lower bound is above its upper bound.
    pub fn is_crossed(&self) -> bool
        ensures { result ≡ is_crossed self.now }
    {
        match self {
            Set::Interval { lower, upper } => upper < lower,
            _ => false,
        }
    }

    /// Whether it is a set of vectors whose dimension isn't this number of components, or is less
    /// than 1, or less than 2 for a norm cone.
    pub fn has_bad_dimension(&self, components: usize) -> bool
        ensures { result ≡ has_bad_dimension self.now components }
    {
        let dimension = self.dimension() as usize;
        let least = if self.is_norm_cone() { 2 } else { 1 };
        !self.is_scalar() && (dimension != components || dimension < least)
    }
}
