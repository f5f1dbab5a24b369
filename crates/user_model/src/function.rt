//! Functions of the user's variables.
ghost use Rattle.std.specs.Prelude.{◌≡◌, IfOk};

use aff_core::{Address, Addresses, Aff, VecAff};
use lists::Duplicate;
use ratio_core::Memory;
use std::alloc::Global;

/// A function of the user's variables, over their addresses.
#[derive(Debug, Drop)]
pub enum UserFunc {
    /// One variable.
    Plain(Address),
    Affine(Aff),
    /// A variable a component.
    PlainVec(Addresses),
    /// An affine function a component.
    AffineVec(VecAff),
}

impl UserFunc {
    /// An equal function in memory of its own.
    pub fn copy(&self, _alloc: Global) -> Result<UserFunc, Memory>
        ensures { IfOk result (λ func. func ≡ self.now) }
    {
        Ok(match self {
            UserFunc::Plain(var) => UserFunc::Plain(*var),
            UserFunc::Affine(func) => UserFunc::Affine(func.copy()?),
            UserFunc::PlainVec(vars) => UserFunc::PlainVec(vars.copy()?),
            UserFunc::AffineVec(funcs) => UserFunc::AffineVec(funcs.copy()?),
        })
    }
}
