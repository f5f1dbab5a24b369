//! What a point of the dual says of the model.
ghost use Rattle.std.specs.Prelude.{◌≡◌, ◌≤◌, [], ◌∷◌, All, length, map};
ghost use Rattle.ratio_core.specs.Rational.{Rational, SumFits, ◌+ℚ◌};
ghost use Rattle.ratio_core.specs.Answers.{ExactWhere};
ghost use Rattle.aff_core.specs.Address.{Address};
ghost use Rattle.aff_core.specs.Function.{coefficient};
ghost use Rattle.set_core.specs.Vectors.{first_of, others_of};
ghost use Rattle.user_model.specs.Model.{variables};
ghost use Rattle.certificates.specs.Duals as dual;
ghost use Rattle.certificates.specs.Points.{address_of, addresses_of, objective_function, sense_of};
ghost use Rattle.cert_core.specs.Checked.{HasRowDuals};
ghost use Rattle.cert_core.specs.Folds.{CostFits};
ghost use Rattle.group_numbering.specs.NewGroups.{variable_count};
ghost use Rattle.dual_model.specs.Carried.{HoldsDuals, carried_rows, carried_variable, carried_variables, part_size};
ghost use Rattle.dual_model.specs.DualOf.{new_groups};
ghost use Rattle.dual_model.specs.RowPartLaws.{total_parts};
ghost use Rattle.dual_parts.specs.Parts.{joined};
ghost use Rattle.dualization.specs.Answers.{CarriesPoint};
ghost use Rattle.dualization.specs.Fitting.{FirstJoin, FirstLeft, JoinFits, JoinsFit, LeftFits};
ghost use Rattle.dualization.specs.Told.{TellsOfDual};

use crate::DualFault;
use crate::fault::{at_row, at_variable};
use aff_core::{Address, Root};
use cert_core::{Variables, adjoint_of_rows, component_count, cost, reduced_cost, sense};
use certificates::DualRows;
use lists::{Memory, Sequence};
use model_store::UserModel;
use ratio_core::{NumberFault, Ratio, Ratios};
use set_core::Set;
use std::alloc::Global;
use user_model::{GroupVar, Objective, Row, Rows};

/// Duals of a model's rows and of its variables, in the model's order.
#[derive(Debug, Drop)]
pub struct Carried {
    pub rows: DualRows,
    pub vars: Ratios,
}

/// The duals that a point of the model's dual is carried to, given a number for each variable of
/// the dual. `Overflow` comes exactly where a sum of two variables, or a product or a sum of what is
/// left for a variable, exceeds 128 bits: at the first row with such a sum, or else at the first
/// such variable.
pub fn carry(alloc: Global, model: &UserModel, x: &Ratios) -> Result<Carried, DualFault>
    requires { length x.now ≡ variable_count (new_groups model.now.model) }
    ensures carried { CarriesPoint model.now.model x.now result }
    ensures holds { HoldsDuals model.now.model }
{
    let rows = carried_rows(alloc, model.rows(), x.as_slice())?;
    let vars = carried_variables(alloc, model, &rows)?;
    Ok(Carried {
        rows: Sequence::from_vec(rows),
        vars: Sequence::from_vec(vars),
    })
}

// ---- rows

fn carried_rows(alloc: Global, rows: &Rows, x: &[Ratio]) -> Result<Vec<Ratios>, DualFault>
    requires { total_parts rows.now.items ≤ length x.now }
    ensures { TellsOfDual result (λ duals. JoinsFit rows.now.items x.now
        × (duals.items ≡ carried_rows rows.now.items x.now))
        (FirstJoin rows.now.items x.now) (λ _. ⊥) }
{
    let mut carried = Vec::with_capacity(alloc, rows.len())?;
    let mut left = x;
    for row in rows.iter() {
        let (own, others) = left.split_at(part_count(row));
        match joined(alloc, row, own) {
            Ok(duals) => carried.push(duals)?,
            Err(NumberFault::Overflow) => return Err(at_row(row)),
            Err(NumberFault::Memory) => return Err(DualFault::Memory),
        }
        left = others;
    }
    Ok(carried)
}

// How many variables of the dual hold the duals of a row.
pub(crate) fn part_count(row: &Row) -> usize
    ensures { result ≡ part_size row.now }
{
    match row.set {
        Set::Interval { .. } => 2,
        _ => component_count(&row.func),
    }
}

// The duals of a row.
fn joined(alloc: Global, row: &Row, own: &[Ratio]) -> Result<Ratios, NumberFault>
    requires { length own.now ≡ part_size row.now }
    ensures { ExactWhere result (JoinFits row.now.set own.now)
        (λ duals. duals ≡ joined row.now.set own.now) }
{
    match row.set {
        Set::Interval { .. } => summed(alloc, own),
        _ => Ok(Ratios::from_vec(Vec::from_slice(alloc, own)?)),
    }
}

// The sum of two numbers.
fn summed(alloc: Global, two: &[Ratio]) -> Result<Ratios, NumberFault>
    requires { length two.now ≡ 2 }
    ensures { ExactWhere result (SumFits (first_of two.now) (first_of (others_of two.now)))
        (λ duals. duals ≡ (first_of two.now +ℚ first_of (others_of two.now)) ∷ []) }
{
    let sum = two[0].add(&two[1])?;
    Ok(Ratios::from_vec(vec![in alloc; sum]?))
}

// ---- variables

fn carried_variables(
    alloc: Global,
    model: &UserModel,
    duals: &[Ratios],
) -> Result<Vec<Ratio>, DualFault>
    requires { HasRowDuals model.now.model.rows duals.now }
    ensures { let model = model.now.model in
        TellsOfDual result (λ vars. All (LeftFits model duals.now) (addresses_of (variables model))
        × (vars.items ≡ carried_variables model duals.now))
        (λ _. ⊥) (FirstLeft model duals.now (variables model)) }
{
    let all = Variables::of(alloc, model.groups())?;
    match left_for(alloc, model, &all, duals) {
        Ok(vars) => Ok(vars),
        Err(NumberFault::Overflow) => {
            test_groups(alloc, model, duals)?;
            unreachable!()
        }
        Err(NumberFault::Memory) => Err(DualFault::Memory),
    }
}

// What the rows' duals leave for each of some variables.
fn left_for(
    alloc: Global,
    model: &UserModel,
    vars: &Variables,
    duals: &[Ratios],
) -> Result<Vec<Ratio>, NumberFault>
    requires { HasRowDuals model.now.model.rows duals.now }
    ensures { ExactWhere result (All (LeftFits model.now.model duals.now) vars.now)
        (λ left. left.items ≡ map (carried_variable model.now.model duals.now) vars.now) }
{
    let adjoints = adjoint_of_rows(alloc, vars, model.rows(), duals)?;
    reduced_costs(
        alloc,
        model.objective(),
        vars.addresses(),
        adjoints.as_slice(),
    )
}

fn reduced_costs(
    alloc: Global,
    objective: &Objective,
    vars: &[Address],
    adjoints: &[Ratio],
) -> Result<Vec<Ratio>, NumberFault>
    requires { length adjoints.now ≡ length vars.now }
    ensures { (a : Address → Rational) → map a vars.now ≡ adjoints.now
        → ExactWhere result (All (λ v. CostFits (sense_of objective.now)
        (coefficient (objective_function objective.now) v) (a v)) vars.now)
        (λ left. left.items ≡ map (λ v. dual.reduced_cost (sense_of objective.now)
        (coefficient (objective_function objective.now) v) (a v)) vars.now) }
{
    let mut left = Vec::with_capacity(alloc, vars.len())?;
    for (i, var) in vars.iter().enumerate() {
        left.push(reduced_cost(sense(objective), &cost(objective, var), &adjoints[i])?)?;
    }
    Ok(left)
}

// Finds the first variable for which what is left exceeds 128 bits.
fn test_groups(alloc: Global, model: &UserModel, duals: &[Ratios]) -> Result<(), DualFault>
    requires { HasRowDuals model.now.model.rows duals.now }
    ensures { let model = model.now.model in
        TellsOfDual result (λ _. All (LeftFits model duals.now) (addresses_of (variables model)))
        (λ _. ⊥) (FirstLeft model duals.now (variables model)) }
{
    for group in model.groups().iter() {
        test_each(alloc, model, group.vars.as_slice(), duals)?;
    }
    Ok(())
}

fn test_each(
    alloc: Global,
    model: &UserModel,
    vars: &[GroupVar],
    duals: &[Ratios],
) -> Result<(), DualFault>
    requires { HasRowDuals model.now.model.rows duals.now }
    ensures { let model = model.now.model in
        TellsOfDual result (λ _. All (LeftFits model duals.now) (addresses_of vars.now))
        (λ _. ⊥) (FirstLeft model duals.now vars.now) }
{
    for var in vars {
        match test_one(alloc, model, var, duals) {
            Ok(()) => {}
            Err(NumberFault::Overflow) => return Err(at_variable(var)),
            Err(NumberFault::Memory) => return Err(DualFault::Memory),
        }
    }
    Ok(())
}

fn test_one(
    alloc: Global,
    model: &UserModel,
    var: &GroupVar,
    duals: &[Ratios],
) -> Result<(), NumberFault>
    requires { HasRowDuals model.now.model.rows duals.now }
    ensures { ExactWhere result (LeftFits model.now.model duals.now (address_of var.now))
        (λ _. Unit {0}) }
{
    let single = vec![in alloc; Address::root(Root::Variable, var.number)]?;
    left_for(alloc, model, &Variables::ascending(single), duals)?;
    Ok(())
}
