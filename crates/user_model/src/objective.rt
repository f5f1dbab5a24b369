//! Objectives.
ghost use Rattle.std.specs.Prelude.{◌≡◌, IfOk};
ghost use Rattle.user_model.specs.Model.{objective_terms};

use aff_core::{Address, Aff, Sense};
use lists::Duplicate;
use ratio_core::Memory;
use std::alloc::Global;

/// What is sought of the feasible points.
#[derive(Debug, Drop)]
pub enum Objective {
    /// Any of them.
    Feasibility,
    /// One that makes a variable least or greatest.
    Plain { sense: Sense, var: Address },
    /// One that makes an affine function least or greatest.
    Affine { sense: Sense, func: Aff },
}

impl Objective {
    /// An equal objective in memory of its own.
    pub fn copy(&self, _alloc: Global) -> Result<Objective, Memory>
        ensures { IfOk result (λ objective. objective ≡ self.now) }
    {
        Ok(match self {
            Objective::Feasibility => Objective::Feasibility,
            Objective::Plain { sense, var } => Objective::Plain {
                sense: *sense,
                var: *var,
            },
            Objective::Affine { sense, func } => Objective::Affine {
                sense: *sense,
                func: func.copy()?,
            },
        })
    }

    /// How many terms its function has.
    pub fn term_count(&self) -> u64
        ensures { result ≡ objective_terms self.now }
    {
        match self {
            Objective::Affine { func, .. } => func.term_count() as u64,
            Objective::Feasibility | Objective::Plain { .. } => 0,
        }
    }
}
