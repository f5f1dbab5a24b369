//! Whether a point is feasible, or a ray leads nowhere out of the model.
ghost use Rattle.std.specs.Prelude.{◌≡◌, length, All, map};
ghost use Rattle.aff_core.specs.Address.{Address};
ghost use Rattle.aff_core.specs.FunctionLists.{evaluations};
ghost use Rattle.ratio_core.specs.Rational.{Rational};
ghost use Rattle.ratio_core.specs.Answers.{ExactWhere};
ghost use Rattle.set_core.specs.Membership.{MembershipFits};
ghost use Rattle.certificates.specs.Points.{all_addresses, functions_of, functions_of_group, variables_at};
ghost use Rattle.cert_core.specs.Answers.{TellsWhereFits};
ghost use Rattle.cert_core.specs.Folds.{EvaluationFits, FitIn};
ghost use Rattle.cert_core.specs.Components.{functions_in};
ghost use Rattle.cert_core.specs.Readings.{one_of};
ghost use Rattle.cert_core.specs.Holding.{FunctionsHold, HasRowSet, HasGroupSet};
ghost use Rattle.cert_core.specs.Points.{numbers_in};

use crate::components::{Components, components_of};
use crate::point::ModelPoint;
use crate::readings::ValueOrSlope;
use aff_core::{Address, Aff};
use ratio_core::{NumberFault, Ratio};
use std::alloc::Global;
use user_model::{Groups, Row, Rows};

/// Whether each row's functions hold.
pub(crate) fn rows_hold(
    alloc: Global,
    reading: ValueOrSlope,
    rows: &Rows,
    at: &ModelPoint,
) -> Result<bool, NumberFault>
    requires { All HasRowSet rows.now.items }
    ensures { let x = numbers_in at.now in
        TellsWhereFits result
        (All (λ r. FitIn (one_of reading) r.set (functions_of r.func) x) rows.now.items)
        (All (λ r. FunctionsHold (one_of reading) r.set (functions_of r.func) x) rows.now.items) }
{
    let mut all = true;
    for row in rows.iter() {
        let holds = row_holds(alloc, reading, row, at)?;
        all &= holds;
    }
    Ok(all)
}

fn row_holds(
    alloc: Global,
    reading: ValueOrSlope,
    row: &Row,
    at: &ModelPoint,
) -> Result<bool, NumberFault>
    requires { HasRowSet row.now }
    ensures { let x = numbers_in at.now in
        TellsWhereFits result
        (FitIn (one_of reading) row.now.set (functions_of row.now.func) x)
        (FunctionsHold (one_of reading) row.now.set (functions_of row.now.func) x) }
{
    let read = read_components(alloc, reading, components_of(&row.func), at)?;
    reading.holds(&row.set, &read)
}

fn read_components(
    alloc: Global,
    reading: ValueOrSlope,
    components: Components,
    at: &ModelPoint,
) -> Result<Vec<Ratio>, NumberFault>
    ensures { let x = numbers_in at.now in
        ExactWhere result
        (All (λ f. EvaluationFits (one_of reading) f x) (functions_in components.entry))
        (λ v. v.items ≡ evaluations (one_of reading) (functions_in components.entry) x) }
{
    match components {
        Components::Variables(vars) => read_variables(alloc, reading, vars, at),
        Components::Functions(fs) => read_functions(alloc, reading, fs, at),
    }
}

fn read_variables(
    alloc: Global,
    reading: ValueOrSlope,
    vars: &[Address],
    at: &ModelPoint,
) -> Result<Vec<Ratio>, NumberFault>
    ensures { let x = numbers_in at.now in
        ExactWhere result
        (All (λ f. EvaluationFits (one_of reading) f x) (variables_at vars.now))
        (λ v. v.items ≡ evaluations (one_of reading) (variables_at vars.now) x) }
{
    let mut read = Vec::with_capacity(alloc, vars.len())?;
    for var in vars {
        read.push(reading.of_variable(var, at)?)?;
    }
    Ok(read)
}

fn read_functions(
    alloc: Global,
    reading: ValueOrSlope,
    fs: &[Aff],
    at: &ModelPoint,
) -> Result<Vec<Ratio>, NumberFault>
    ensures { let x = numbers_in at.now in
        ExactWhere result
        (All (λ f. EvaluationFits (one_of reading) f x) fs.now)
        (λ v. v.items ≡ evaluations (one_of reading) fs.now x) }
{
    let mut read = Vec::with_capacity(alloc, fs.len())?;
    for f in fs {
        read.push(reading.of_function(f, at)?)?;
    }
    Ok(read)
}

/// Whether each group's variables hold, at any point that has these numbers of them.
pub(crate) fn groups_hold(
    reading: ValueOrSlope,
    groups: &Groups,
    numbers: &[Ratio],
) -> Result<bool, NumberFault>
    requires sets { All HasGroupSet groups.now.items }
    requires size { length numbers.now ≡ length (all_addresses groups.now.items) }
    ensures { (x : Address → Rational) → map x (all_addresses groups.now.items) ≡ numbers.now
        → TellsWhereFits result
        (All (λ g. MembershipFits g.set (evaluations (one_of reading) (functions_of_group g) x))
        groups.now.items)
        (All (λ g. FunctionsHold (one_of reading) g.set (functions_of_group g) x) groups.now.items) }
{
    let mut all = true;
    let mut left = numbers;
    for group in groups.iter() {
        let (own, others) = left.split_at(group.vars.len());
        let holds = reading.holds(&group.set, own)?;
        all &= holds;
        left = others;
    }
    Ok(all)
}
