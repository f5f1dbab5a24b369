//! The functions that stand for variables.
ghost use Rattle.std.specs.Prelude.{◌≡◌, IfOk, OnOk};
ghost use Rattle.aff_core.specs.Arithmetic.{HasEach};
ghost use Rattle.fresh_bridging.specs.Entries.{function_in};
ghost use Rattle.bridge_plan.specs.Stands.{AreFunctions};

use crate::expressions::Expressions;
use aff_core::{Address, Aff, Exprs};
use item_core::Expression;
use lists::{Duplicate, Memory};
use std::alloc::Global;

// The function that stands for a variable.
pub(crate) fn function_for(
    alloc: Global,
    expressions: &Expressions,
    var: &Address,
) -> Result<Aff, Memory>
    ensures { IfOk result (λ f. f ≡ function_in expressions.now var.now) }
{
    match expressions.get(var) {
        None => Aff::variable(alloc, var),
        Some(Expression::Kept { var }) => Aff::variable(alloc, var),
        Some(Expression::Bridged { func }) => func.copy(),
    }
}

// Makes the functions for the variables that a function mentions, but for those that are there.
pub(crate) fn make_functions(
    alloc: Global,
    expressions: &Expressions,
    functions: &mut Exprs,
    func: &Aff,
) -> Result<(), Memory>
    requires { AreFunctions expressions.now functions.old }
    ensures stand { AreFunctions expressions.now functions.new }
    ensures each { OnOk result (HasEach functions.new func.now) }
{
    for (var, _) in func.terms() {
        if functions.get(var).is_none() {
            let function = function_for(alloc, expressions, var)?;
            let Ok(before) = functions.put(*var, function) else {
                return Err(Memory);
            };
            drop(before);
        }
    }
    Ok(())
}
