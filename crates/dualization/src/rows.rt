//! The rows of the dual: what the objective and the rows' duals leave for the variables of each
//! group.
ghost use Rattle.std.specs.Prelude.{◌≡◌, ◌+◌, ◌++◌, ◌≤◌, IfOk, OnOk, length, map};
ghost use Rattle.std.specs.List.{IsDistinct};
ghost use Rattle.std.specs.Str.{bytes_eq};
ghost use Rattle.rational_laws.specs.Dot.{negated};
ghost use Rattle.certificates.specs.Points.{addresses_of};
ghost use Rattle.dual_parts.specs.Parts.{own_bounds};
ghost use Rattle.dual_model.specs.DualOf.{group_rows, row_for, signed};
ghost use Rattle.dual_model.specs.GroupRowLaws.{own_total};
ghost use Rattle.dualization.specs.DualEdits.{edit_of_row};
ghost use Rattle.dualization.specs.Rows.{ColumnsFit, LeftSize, left_coefficients, left_named, named_in, one_or_more, own_from, row_set};

use crate::by_name::named_function;
use crate::coefficients::column_in;
use crate::names::row_name;
use crate::sets::{dual_set, zeros};
use aff_core::{Address, Root};
use cert_core::{cost, sense};
use lists::Memory;
use model_store::UserModel;
use name_index::Name;
use named_aff::{NamedAff, NamedVec};
use ratio_core::Ratio;
use set_core::Set;
use std::alloc::Global;
use user_model::{Edit, Group, GroupVar, NamedFunc, Objective, Rows, Sense};

/// Appends the row of each group. The variables that the groups have of their own begin at a number.
pub(crate) fn push_rows(
    alloc: Global,
    edits: &mut Vec<Edit>,
    model: &UserModel,
    names: &[Name],
    own: usize,
) -> Result<(), Memory>
    requires distinct { IsDistinct bytes_eq names.now }
    requires columns { ColumnsFit model.now.model own }
    requires size { own + own_total model.now.model.groups ≤ length names.now }
    ensures { OnOk result (edits.new.items ≡ edits.old.items
        ++ map (edit_of_row names.now) (group_rows model.now.model 0 1 own model.now.model.groups)) }
{
    let groups = model.groups();
    let _count = groups.len();
    let mut next = own;
    for (i, group) in groups.iter().enumerate() {
        push_row(alloc, edits, model, names, i + 1, next, group)?;
        next += own_count(&group.set);
    }
    Ok(())
}

/// How many variables a group has of its own.
pub(crate) fn own_count(set: &Set) -> usize
    ensures { result ≡ length (own_bounds set.now) }
{
    match set {
        Set::Interval { .. } => 2,
        _ => 0,
    }
}

fn push_row(
    alloc: Global,
    edits: &mut Vec<Edit>,
    model: &UserModel,
    names: &[Name],
    place: usize,
    own: usize,
    group: &Group,
) -> Result<(), Memory>
    requires distinct { IsDistinct bytes_eq names.now }
    requires columns { ColumnsFit model.now.model own }
    requires size { own + length (own_bounds group.now.set) ≤ length names.now }
    ensures { OnOk result (edits.new.items ≡ edits.old.items ++ map (edit_of_row names.now)
        (row_for model.now.model 0 place own (addresses_of group.now.vars) group.now.set)) }
{
    match row_set(alloc, &group.set)? {
        None => Ok(()),
        Some(set) => {
            let two = own_from(&group.set, own);
            let functions = left_functions(alloc, model, names, group.vars.as_slice(), two)?;
            edits.push(Edit::AddRow {
                name: row_name(alloc, place)?,
                func: named_in(&set, functions),
                set,
            })?;
            Ok(())
        }
    }
}

// The set of a group's row, and none where any duals are right.
fn row_set(alloc: Global, set: &Set) -> Result<Option<Set>, Memory>
    ensures { IfOk result (λ row. row ≡ row_set set.now) }
{
    match set {
        Set::EqualTo { .. } | Set::Zeros { .. } => Ok(None),
        Set::Interval { .. } => Ok(Some(Set::EqualTo {
            value: Ratio::zero(),
        })),
        set => Ok(Some(dual_set(alloc, set)?)),
    }
}

// Where a group's own variables begin, of which only an interval has some.
fn own_from(set: &Set, own: usize) -> Option<usize>
    ensures { result ≡ own_from set.now own }
{
    match set {
        Set::Interval { .. } => Some(own),
        _ => None,
    }
}

fn left_functions(
    alloc: Global,
    model: &UserModel,
    names: &[Name],
    vars: &[GroupVar],
    two: Option<usize>,
) -> Result<Vec<NamedAff>, Memory>
    requires distinct { IsDistinct bytes_eq names.now }
    requires size { LeftSize model.now.model two (length names.now) }
    ensures { IfOk result (λ functions. functions.items
        ≡ map (left_named model.now.model names.now two) (addresses_of vars.now)) }
{
    let mut functions = Vec::with_capacity(alloc, vars.len())?;
    for var in vars {
        let address = Address::root(Root::Variable, var.number);
        functions.push(left_function(alloc, model, names, &address, two)?)?;
    }
    Ok(functions)
}

// What is left for a variable, less the two variables from a number on.
fn left_function(
    alloc: Global,
    model: &UserModel,
    names: &[Name],
    at: &Address,
    two: Option<usize>,
) -> Result<NamedAff, Memory>
    requires distinct { IsDistinct bytes_eq names.now }
    requires size { LeftSize model.now.model two (length names.now) }
    ensures { IfOk result (λ f. f ≡ left_named model.now.model names.now two at.now) }
{
    let objective = model.objective();
    let column = column_in(alloc, model.rows(), at)?;
    let coefficients = left_coefficients(alloc, column.as_slice(), two)?;
    let constant = signed(sense(objective), &cost(objective, at));
    named_function(alloc, names, coefficients.as_slice(), constant)
}

fn left_coefficients(
    alloc: Global,
    column: &[Ratio],
    two: Option<usize>,
) -> Result<Vec<Ratio>, Memory>
    ensures { IfOk result (λ v. v.items ≡ left_coefficients column.now two) }
{
    let mut left = negated(alloc, column)?;
    match two {
        None => Ok(left),
        Some(number) => {
            let gap = zeros(alloc, number.saturating_sub(left.len()))?;
            left.extend_from_slice(gap.as_slice())?;
            left.push(Ratio::one().neg())?;
            left.push(Ratio::one().neg())?;
            Ok(left)
        }
    }
}

fn negated(alloc: Global, numbers: &[Ratio]) -> Result<Vec<Ratio>, Memory>
    ensures { IfOk result (λ v. v.items ≡ negated numbers.now) }
{
    let mut all = Vec::with_capacity(alloc, numbers.len())?;
    for number in numbers {
        all.push(number.neg())?;
    }
    Ok(all)
}

/// A number by the sense of the model.
pub(crate) fn signed(sense: Sense, number: &Ratio) -> Ratio
    ensures { result ≡ signed sense number.now }
{
    match sense {
        Sense::Min => *number,
        Sense::Max => number.neg(),
    }
}

// The functions as that of a set of numbers, or of vectors.
fn named_in(set: &Set, functions: Vec<NamedAff>) -> NamedFunc
    ensures { result ≡ named_in set.now functions.items }
{
    if !set.is_scalar() {
        return NamedFunc::AffineVec(NamedVec::from_vec(functions));
    }
    scalar_or_vector(functions)
}

fn scalar_or_vector(functions: Vec<NamedAff>) -> NamedFunc
    ensures { result ≡ one_or_more functions.items }
{
    let mut functions = functions;
    if functions.len() != 1 {
        return NamedFunc::AffineVec(NamedVec::from_vec(functions));
    }
    match functions.pop() {
        Some(function) => NamedFunc::Affine(function),
        None => unreachable!(),
    }
}
