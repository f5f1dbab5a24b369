//! The numbers of functions: coefficients of a variable and constants, one for each variable of the
//! rows' duals.
ghost use Rattle.std.specs.Prelude.{◌≡◌, ◌≤◌, ◌⊎◌, ◌++◌, IfOk, OnOk, length};
ghost use Rattle.aff_core.specs.Address.{address_cmp};
ghost use Rattle.aff_core.specs.Function.{coefficient, variable};
ghost use Rattle.aff_core.specs.FunctionLists.{coefficients, constants};
ghost use Rattle.certificates.specs.Points.{functions_of, variables_at};
ghost use Rattle.dual_parts.specs.Parts.{on_parts};
ghost use Rattle.dual_model.specs.DualOf.{column_in};

use aff_core::{Address, Aff};
use lists::Memory;
use ratio_core::Ratio;
use set_core::Set;
use std::alloc::Global;
use std::slice;
use user_model::{Rows, UserFunc};

/// The coefficients of a variable in the rows, one for each variable of the rows' duals.
pub(crate) fn column_in(alloc: Global, rows: &Rows, at: &Address) -> Result<Vec<Ratio>, Memory>
    ensures { IfOk result (λ column. column.items ≡ column_in rows.now.items at.now) }
{
    let mut column = Vec::new(alloc);
    for row in rows.iter() {
        let own = coefficients(alloc, &row.func, at)?;
        push_on_parts(&mut column, &row.set, own.as_slice())?;
    }
    Ok(column)
}

/// Appends what is at each component, at each part of its dual.
pub(crate) fn push_on_parts(
    all: &mut Vec<Ratio>,
    set: &Set,
    numbers: &[Ratio],
) -> Result<(), Memory>
    ensures { OnOk result (all.new.items ≡ all.old.items ++ on_parts set.now numbers.now) }
{
    match set {
        Set::Interval { .. } => {
            all.extend_from_slice(numbers)?;
            all.extend_from_slice(numbers)?;
            Ok(())
        }
        _ => {
            all.extend_from_slice(numbers)?;
            Ok(())
        }
    }
}

fn coefficients(alloc: Global, func: &UserFunc, at: &Address) -> Result<Vec<Ratio>, Memory>
    ensures { IfOk result (λ own. own.items ≡ coefficients (functions_of func.now) at.now) }
{
    match func {
        UserFunc::Plain(var) => units(alloc, slice::from_ref(var), at),
        UserFunc::Affine(f) => coefficients_of(alloc, slice::from_ref(f), at),
        UserFunc::PlainVec(vars) => units(alloc, vars.as_slice(), at),
        UserFunc::AffineVec(fs) => coefficients_of(alloc, fs.as_slice(), at),
    }
}

fn units(alloc: Global, vars: &[Address], at: &Address) -> Result<Vec<Ratio>, Memory>
    ensures { IfOk result (λ own. own.items ≡ coefficients (variables_at vars.now) at.now) }
{
    let mut units = Vec::with_capacity(alloc, vars.len())?;
    for var in vars {
        units.push(unit(var, at))?;
    }
    Ok(units)
}

// 1 at a variable, and 0 elsewhere.
#[tactic(auto, using(linear_laws::specs::ListLaws::coefficient_variable))]
fn unit(var: &Address, at: &Address) -> Ratio
    ensures { result ≡ coefficient {R = address_cmp} (variable var.now) at.now }
{
    if at == var {
        Ratio::one()
    } else {
        Ratio::zero()
    }
}

fn coefficients_of(alloc: Global, fs: &[Aff], at: &Address) -> Result<Vec<Ratio>, Memory>
    ensures { IfOk result (λ own. own.items ≡ coefficients fs.now at.now) }
{
    let mut own = Vec::with_capacity(alloc, fs.len())?;
    for f in fs {
        own.push(f.coef(at))?;
    }
    Ok(own)
}

/// The constants of a function's components.
pub(crate) fn constants(alloc: Global, func: &UserFunc) -> Result<Vec<Ratio>, Memory>
    ensures { IfOk result (λ own. own.items ≡ constants (functions_of func.now)) }
{
    match func {
        UserFunc::Plain(var) => zeros_for(alloc, slice::from_ref(var)),
        UserFunc::Affine(f) => constants_of(alloc, slice::from_ref(f)),
        UserFunc::PlainVec(vars) => zeros_for(alloc, vars.as_slice()),
        UserFunc::AffineVec(fs) => constants_of(alloc, fs.as_slice()),
    }
}

fn zeros_for(alloc: Global, vars: &[Address]) -> Result<Vec<Ratio>, Memory>
    ensures { IfOk result (λ own. own.items ≡ constants (variables_at vars.now)) }
{
    let mut zeros = Vec::with_capacity(alloc, vars.len())?;
    for _var in vars {
        zeros.push(Ratio::zero())?;
    }
    Ok(zeros)
}

fn constants_of(alloc: Global, fs: &[Aff]) -> Result<Vec<Ratio>, Memory>
    ensures { IfOk result (λ own. own.items ≡ constants fs.now) }
{
    let mut own = Vec::with_capacity(alloc, fs.len())?;
    for f in fs {
        own.push(f.constant())?;
    }
    Ok(own)
}

/// How many places both lists have.
pub(crate) fn common_count(first: &[Ratio], second: &[Ratio]) -> usize
    ensures first { result ≤ length first.now }
    ensures second { result ≤ length second.now }
    ensures all { (length first.now ≤ result) ⊎ (length second.now ≤ result) }
{
    if first.len() < second.len() {
        return first.len();
    }
    second.len()
}
