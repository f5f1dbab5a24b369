//! The rows' adjoint of each variable, in one pass over the rows.
ghost use Rattle.std.specs.Prelude.{◌≡◌, [], ◌∷◌, ◌<◌, All, Contains, IfOk, cond, length, map, slice_index_or, slice_set};
ghost use Rattle.ratio_core.specs.Folds.{sum_from};
ghost use Rattle.ratio_core.specs.Rational.{Rational, zero_ℚ, ◌+ℚ◌, ◌*ℚ◌};
ghost use Rattle.ratio_core.specs.Answers.{ExactWhere};
ghost use Rattle.aff_core.specs.Address.{Address, address_eq};
ghost use Rattle.aff_core.specs.FunctionLists.{coefficients};
ghost use Rattle.aff_core.specs.Rising.{RiseStrictly};
ghost use Rattle.aff_core.specs.Terms.{StepFits};
ghost use Rattle.certificates.specs.Duals.{rows_with};
ghost use Rattle.certificates.specs.Points.{variables_at};
ghost use Rattle.cert_core.specs.Checked.{HasRowDuals};
ghost use Rattle.cert_core.specs.Components.{functions_in};
ghost use Rattle.cert_core.specs.Folds.{AddUp, adjoint_parts, products};
ghost use Rattle.cert_core.specs.Adding.{AddsAt, coefficient_among};

use crate::components::{Components, components_of};
use crate::sums::plus_product;
use crate::variables::Variables;
use aff_core::{Address, Aff};
use ratio_core::{Memory, NumberFault, Ratio, Ratios};
use std::alloc::Global;
use user_model::Rows;

/// For each variable its coefficients times the duals, added over rows and components.
pub fn adjoint_of_rows(
    alloc: Global,
    variables: &Variables,
    rows: &Rows,
    duals: &[Ratios],
) -> Result<Vec<Ratio>, NumberFault>
    requires { HasRowDuals rows.now.items duals.now }
    ensures { let parts = adjoint_parts (rows_with duals.now rows.now.items) in
        ExactWhere result (All (λ v. AddUp zero_ℚ (parts v)) variables.now)
        (λ sums. sums.items ≡ map (λ v. sum_from zero_ℚ (parts v)) variables.now) }
{
    let mut sums = zeros(alloc, variables.addresses())?;
    add_rows(variables, &mut sums, rows, duals)?;
    Ok(sums)
}

fn zeros(alloc: Global, addresses: &[Address]) -> Result<Vec<Ratio>, Memory>
    ensures { IfOk result (λ v. v.items ≡ map (λ _. zero_ℚ) addresses.now) }
{
    Ok(addresses.iter().map(|_| Ratio::zero()).collect(alloc)?)
}

// Adds each row's components times their duals, to sums that have a number for each variable.
fn add_rows(
    variables: &Variables,
    sums: &mut [Ratio],
    rows: &Rows,
    duals: &[Ratios],
) -> Result<(), NumberFault>
    requires duals { HasRowDuals rows.now.items duals.now }
    requires sums { length sums.old ≡ length variables.now }
    ensures { AddsAt result variables.now sums.old sums.new
        (adjoint_parts (rows_with duals.now rows.now.items)) }
{
    for (i, row) in rows.iter().enumerate() {
        add_components(
            variables,
            sums,
            duals[i].as_slice(),
            components_of(&row.func),
        )?;
    }
    Ok(())
}

fn add_components(
    variables: &Variables,
    sums: &mut [Ratio],
    duals: &[Ratio],
    components: Components,
) -> Result<(), NumberFault>
    requires duals { length duals.now ≡ length (functions_in components) }
    requires sums { length sums.old ≡ length variables.now }
    ensures { AddsAt result variables.now sums.old sums.new
        (λ v. products duals.now (coefficients (functions_in components.entry) v)) }
{
    match components {
        Components::Variables(vars) => add_variables(variables, sums, duals, vars),
        Components::Functions(fs) => add_functions(variables, sums, duals, fs),
    }
}

fn add_variables(
    variables: &Variables,
    sums: &mut [Ratio],
    duals: &[Ratio],
    vars: &[Address],
) -> Result<(), NumberFault>
    requires duals { length duals.now ≡ length vars.now }
    requires sums { length sums.old ≡ length variables.now }
    ensures { AddsAt result variables.now sums.old sums.new
        (λ v. products duals.now (coefficients (variables_at vars.now) v)) }
{
    for (i, var) in vars.iter().enumerate() {
        add_multiple(variables, sums, &duals[i], &[(*var, Ratio::one())])?;
    }
    Ok(())
}

fn add_functions(
    variables: &Variables,
    sums: &mut [Ratio],
    duals: &[Ratio],
    fs: &[Aff],
) -> Result<(), NumberFault>
    requires duals { length duals.now ≡ length fs.now }
    requires sums { length sums.old ≡ length variables.now }
    ensures { AddsAt result variables.now sums.old sums.new
        (λ v. products duals.now (coefficients fs.now v)) }
{
    for (i, f) in fs.iter().enumerate() {
        add_multiple(variables, sums, &duals[i], f.terms())?;
    }
    Ok(())
}

// Adds the terms times a number.
fn add_multiple(
    variables: &Variables,
    sums: &mut [Ratio],
    by: &Ratio,
    terms: &[(Address, Ratio)],
) -> Result<(), NumberFault>
    requires terms { RiseStrictly terms.now }
    requires sums { length sums.old ≡ length variables.now }
    ensures { AddsAt result variables.now sums.old sums.new
        (λ v. by.now *ℚ coefficient_among terms.now v ∷ []) }
{
    for (at, coefficient) in terms {
        add_term(variables, sums, by, at, coefficient)?;
    }
    Ok(())
}

// Adds a term times a number, where a variable stands.
fn add_term(
    variables: &Variables,
    sums: &mut [Ratio],
    by: &Ratio,
    at: &Address,
    coefficient: &Ratio,
) -> Result<(), NumberFault>
    requires { length sums.old ≡ length variables.now }
    ensures { (x : Address → Rational) → sums.old ≡ map x variables.now
        → ExactWhere result
        (Contains variables.now at.now → StepFits (x at.now) by.now coefficient.now)
        (λ _. sums.new ≡ map (λ v. cond (address_eq v at.now)
        (x at.now +ℚ by.now *ℚ coefficient.now) (x v)) variables.now) }
{
    match variables.place(at) {
        Some(place) => add_at(sums, place, by, coefficient),
        None => Ok(()),
    }
}

fn add_at(
    sums: &mut [Ratio],
    place: usize,
    by: &Ratio,
    coefficient: &Ratio,
) -> Result<(), NumberFault>
    requires { place < length sums.old }
    ensures { let sum = slice_index_or sums.old place zero_ℚ in
        ExactWhere result (StepFits sum by.now coefficient.now)
        (λ _. sums.new ≡ slice_set sums.old place (sum +ℚ by.now *ℚ coefficient.now)) }
{
    sums[place] = plus_product(&sums[place], by, coefficient)?;
    Ok(())
}
