//! Functions of whose variables each has a variable in its place: these are put in without sums.
ghost use Rattle.std.specs.Prelude.{◌≡◌, IfOk, IfSome, IsTrue};
ghost use Rattle.aff_core.specs.Arithmetic.{composed};
ghost use Rattle.aff_core.specs.Function.{terms_of, variable};
ghost use Rattle.fresh_bridging.specs.Entries.{function_in};
ghost use Rattle.fresh_bridging.specs.FitTests.{substitution_fits};
ghost use Rattle.bridge_plan.specs.Stands.{AreNamed, name_by, named};

use crate::expressions::Expressions;
use aff_core::{Address, Aff, rise_strictly};
use item_core::Expression;
use lists::Memory;
use ratio_core::Ratio;
use std::alloc::Global;

// Whether each variable that a function mentions stands for itself.
pub(crate) fn stays(expressions: &Expressions, func: &Aff) -> bool
    ensures { IsTrue result → AreNamed (function_in expressions.now) (λ v. v) func.now }
{
    // `num` is called for the proof, here and below: what is kept fits
    let _fits = func.constant().num();
    for (var, coefficient) in func.terms() {
        let _fits = coefficient.num();
        if !stands_for_itself(expressions, var) {
            return false;
        }
    }
    true
}

fn stands_for_itself(expressions: &Expressions, var: &Address) -> bool
    ensures { IsTrue result → function_in expressions.now var.now ≡ variable var.now }
{
    match name_for(expressions, var) {
        Some(name) => name == *var,
        None => false,
    }
}

// The function with what stands for its variables put in, if a variable stands for each and these
// rise as its own do.
pub(crate) fn renamed(
    alloc: Global,
    expressions: &Expressions,
    func: &Aff,
) -> Result<Option<Aff>, Memory>
    ensures { let e = function_in expressions.now in
        IfOk result (λ made. IfSome made (λ f. (f ≡ composed e func.now)
        × IsTrue (substitution_fits e func.now))) }
{
    let Some(terms) = renamed_terms(alloc, expressions, func)? else {
        return Ok(None);
    };
    if !rise_strictly(&terms) {
        return Ok(None);
    }
    Ok(Some(Aff::from_terms(alloc, &terms, func.constant())?))
}

// The terms with the variables that stand for theirs, and `None` where one has none.
fn renamed_terms(
    alloc: Global,
    expressions: &Expressions,
    func: &Aff,
) -> Result<Option<Vec<(Address, Ratio)>>, Memory>
    ensures { let e = function_in expressions.now in
        IfOk result (λ made. IfSome made (λ v. (v.items ≡ named (name_by e) (terms_of func.now))
        × AreNamed e (name_by e) func.now)) }
{
    let _fits = func.constant().num();
    let mut made = Vec::with_capacity(alloc, func.term_count())?;
    for (var, coefficient) in func.terms() {
        let _fits = coefficient.num();
        let Some(name) = name_for(expressions, var) else {
            return Ok(None);
        };
        made.push((name, *coefficient))?;
    }
    Ok(Some(made))
}

// The variable that stands for a variable, kept or as a function, if one does.
fn name_for(expressions: &Expressions, var: &Address) -> Option<Address>
    ensures { IfSome result (λ name. function_in expressions.now var.now ≡ variable name) }
{
    match expressions.get(var) {
        None => Some(*var),
        Some(Expression::Kept { var }) => Some(*var),
        Some(Expression::Bridged { func }) => sole_variable(func),
    }
}

// The variable that a function is, if it is one.
fn sole_variable(func: &Aff) -> Option<Address>
    ensures { IfSome result (λ var. func.now ≡ variable var) }
{
    match func.terms() {
        [(var, coefficient)] if *coefficient == Ratio::one() && func.constant().is_zero() => {
            Some(*var)
        }
        _ => None,
    }
}
