//! Functions less variables.
ghost use Rattle.std.specs.Prelude.{◌≡◌, All, IfOk, length};
ghost use Rattle.aff_core.specs.Function.{coefficient, variable};
ghost use Rattle.ratio_core.specs.Rational.{zero_ℚ};
ghost use Rattle.bridge_face.specs.ComponentLaws.{variables};
ghost use Rattle.bridge_face.specs.ImageOf.{differences};
ghost use Rattle.bridge_face.specs.Images.{difference};
ghost use Rattle.bridge_face.specs.Law.{Miss};

use aff_core::{Address, Aff, VecAff};
use lists::Memory;
use ratio_core::Ratio;
use std::alloc::Global;

/// A function less a variable that it doesn't name. As nothing is added, nothing overflows.
pub fn less_variable(func: &Aff, var: &Address) -> Result<Aff, Memory>
    requires { coefficient func.now var.now ≡ zero_ℚ }
    ensures { IfOk result (λ less. less ≡ difference func.now (variable var.now)) }
{
    func.with_coef(var, Ratio::one().neg())
}

/// A variable less a function that doesn't name it. As nothing is added, nothing overflows.
pub fn variable_less(var: &Address, func: &Aff) -> Result<Aff, Memory>
    requires { coefficient func.now var.now ≡ zero_ℚ }
    ensures { IfOk result (λ less. less ≡ difference (variable var.now) func.now) }
{
    func.neg()?.with_coef(var, Ratio::one())
}

/// Each function less the variable at its place. No function names any of these variables.
pub fn less_variables(alloc: Global, funcs: &[Aff], vars: &[Address]) -> Result<VecAff, Memory>
    requires count { length funcs.now ≡ length vars.now }
    requires unnamed { All (λ v. Miss funcs.now v) vars.now }
    ensures { IfOk result (λ less. less ≡ differences funcs.now (variables vars.now)) }
{
    let mut less = Vec::with_capacity(alloc, funcs.len())?;
    for n in 0..funcs.len() {
        less.push(less_variable(&funcs[n], &vars[n])?)?;
    }
    Ok(VecAff::from_vec(less))
}
