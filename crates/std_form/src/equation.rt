//! A component of a solver's row, which borrows the row.
ghost use Rattle.std.specs.Prelude.{◌≡◌};
ghost use Rattle.std.specs.Ordering.{nat_cmp};
ghost use Rattle.aff_core.specs.Function.{coefficient, variable};
ghost use Rattle.equality_form.specs.Equations.{number_of, slack_of};

use ratio_core::Ratio;
use solver_store::{Set, SolverAff};

/// A function of solver indices.
#[derive(Drop)]
pub(crate) enum Function<'a> {
    Zero,
    Variable(usize),
    Affine(&'a SolverAff),
}

/// A component that is to be in a set with the others of its row.
#[derive(Drop)]
pub(crate) struct Equation<'a> {
    pub(crate) function: Function<'a>,
    pub(crate) set: &'a Set,
}

impl<'a> Function<'a> {
    ghost use Rattle.std_form.specs.Borrowed.{function_in};

    // The coefficient of an index.
    pub(crate) fn coefficient(&self, i: usize) -> Ratio
        ensures { result ≡ coefficient (function_in self.now) i }
    {
        match self {
            Function::Zero => Ratio::zero(),
            Function::Variable(var) => unit(*var, i),
            Function::Affine(f) => coefficient_of(f, i),
        }
    }

    pub(crate) fn constant(&self) -> Ratio
        ensures { result ≡ (function_in self.now).constant }
    {
        match self {
            Function::Zero => Ratio::zero(),
            Function::Variable(_) => Ratio::zero(),
            Function::Affine(f) => f.constant(),
        }
    }
}

// 1 where the two are the same, and 0 elsewhere.
fn unit(var: usize, i: usize) -> Ratio
    ensures { result ≡ coefficient {R = nat_cmp} (variable var) i }
{
    if var == i {
        Ratio::one()
    } else {
        Ratio::zero()
    }
}

// The coefficient of an index, found among those that rise.
fn coefficient_of(f: &SolverAff, i: usize) -> Ratio
    ensures { result ≡ coefficient f.now i }
{
    let terms = f.terms();
    match terms.binary_search_by(|(index, _)| index.cmp(&i)) {
        Ok(n) => terms[n].1,
        Err(_) => Ratio::zero(),
    }
}

// The number that a component is to be, or not to pass.
pub(crate) fn number_of(set: &Set) -> Ratio
    ensures { result ≡ number_of set.now }
{
    match set {
        Set::LessThan { upper } => *upper,
        Set::GreaterThan { lower } => *lower,
        Set::EqualTo { value } => *value,
        _ => Ratio::zero(),
    }
}

// Whether the slack is taken off, where there is one.
pub(crate) fn slack_of(set: &Set) -> Option<bool>
    ensures { result ≡ slack_of set.now }
{
    match set {
        Set::LessThan { .. } | Set::Nonpositives { .. } => Some(false),
        Set::GreaterThan { .. } | Set::Nonnegatives { .. } => Some(true),
        _ => None,
    }
}
