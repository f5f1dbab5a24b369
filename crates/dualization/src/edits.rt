//! The edits that make the dual.
ghost use Rattle.std.specs.Prelude.{◌≡◌, ◌+◌, ◌++◌, ◌≤◌, IfOk, OnOk, length, map};
ghost use Rattle.std.specs.List.{IsDistinct};
ghost use Rattle.std.specs.Str.{bytes_eq};
ghost use Rattle.certificates.specs.Points.{sense_of};
ghost use Rattle.dual_parts.specs.Parts.{own_bounds};
ghost use Rattle.dual_model.specs.Carried.{HoldsDuals};
ghost use Rattle.user_model.specs.Model.{empty_model};
ghost use Rattle.dual_model.specs.DualOf.{dual_of_model, opposite, signed};
ghost use Rattle.dualization.specs.Answers.{IsDual};
ghost use Rattle.dualization.specs.DualEdits.{dual_edits};
ghost use Rattle.dualization.specs.Rows.{IsObjectiveOf, all_bounds, edit_of_objective};
ghost use Rattle.limit_laws.specs.Leads.{all_edited};
ghost use Rattle.limit_laws.specs.Limits.{LimitsAlone};

use crate::DualFault;
use crate::by_name::named_function;
use crate::groups::{group_edits, names_added};
use crate::moving::move_groups;
use crate::rows::{push_rows, signed};
use crate::starting::start_sums;
use crate::sums::Sums;
use cert_core::sense;
use lists::{Memory, Sequence};
use model_store::UserModel;
use name_index::Name;
use ratio_core::Ratio;
use set_core::Set;
use std::alloc::Global;
use user_model::{Edit, Edits, Groups, NamedFunc, Sense};

/// The edits that make the dual of a model from an empty model: its groups, its rows and its
/// objective.
///
/// `Overflow` comes exactly where a product or a sum of the dual's objective exceeds 128 bits: at
/// the first row whose bound less its constant does, or else at the first variable with which it
/// does as each variable is moved to the one bound that its creation set has. No edit is refused of
/// an empty model for anything but a limit.
pub fn dual(alloc: Global, model: &UserModel) -> Result<Edits, DualFault>
    ensures dual { IsDual model.now.model result }
    ensures made { IfOk result (λ edits. all_edited empty_model edits ≡ dual_of_model model.now.model) }
    ensures holds { HoldsDuals model.now.model }
    ensures limits { IfOk result (LimitsAlone empty_model) }
{
    let rows = model.rows();
    let objective = model.objective();
    let start = start_sums(alloc, rows, objective)?;
    let sums = move_groups(alloc, rows, objective, model.groups(), start)?;
    Ok(Sequence::from_vec(edits_with(alloc, model, &sums)?))
}

// The edits, where the objective's sums are these.
fn edits_with(alloc: Global, model: &UserModel, sums: &Sums) -> Result<Vec<Edit>, Memory>
    requires { IsObjectiveOf model.now.model sums.now }
    ensures { IfOk result (λ edits. edits.items ≡ dual_edits model.now.model) }
{
    let mut edits = group_edits(alloc, model.rows(), model.groups())?;
    let added = edits.as_slice();
    let names = names_added(alloc, added)?;
    let named = names.as_slice();
    push_rows(alloc, &mut edits, model, named, sums.parts.len())?;
    edits.push(objective_edit(alloc, model, named, sums)?)?;
    Ok(edits)
}

fn objective_edit(
    alloc: Global,
    model: &UserModel,
    names: &[Name],
    sums: &Sums,
) -> Result<Edit, Memory>
    requires distinct { IsDistinct bytes_eq names.now }
    requires size { length sums.now.parts + length (all_bounds model.now.model.groups)
        ≤ length names.now }
    ensures { let model = model.now.model in
        IfOk result (λ edit. edit ≡ edit_of_objective names.now (sense_of model.objective)
        sums.now.constant (sums.now.parts ++ all_bounds model.groups)) }
{
    let model_sense = sense(model.objective());
    let costs = all_costs(alloc, sums.parts.as_slice(), model.groups())?;
    let coefficients = each_signed(alloc, model_sense, costs.as_slice())?;
    let function = named_function(alloc, names, coefficients.as_slice(), sums.constant)?;
    Ok(Edit::Objective {
        sense: opposite(model_sense),
        func: NamedFunc::Affine(function),
    })
}

// What each variable counts, before the sense.
fn all_costs(alloc: Global, parts: &[Ratio], groups: &Groups) -> Result<Vec<Ratio>, Memory>
    ensures { IfOk result (λ costs. costs.items ≡ parts.now ++ all_bounds groups.now.items) }
{
    let mut costs = Vec::from_slice(alloc, parts)?;
    for group in groups.iter() {
        push_own_bounds(&mut costs, &group.set)?;
    }
    Ok(costs)
}

fn push_own_bounds(costs: &mut Vec<Ratio>, set: &Set) -> Result<(), Memory>
    ensures { OnOk result (costs.new.items ≡ costs.old.items ++ own_bounds set.now) }
{
    match set {
        Set::Interval { lower, upper } => {
            costs.push(*lower)?;
            costs.push(*upper)?;
            Ok(())
        }
        _ => Ok(()),
    }
}

fn each_signed(alloc: Global, sense: Sense, numbers: &[Ratio]) -> Result<Vec<Ratio>, Memory>
    ensures { IfOk result (λ all. all.items ≡ map (signed sense) numbers.now) }
{
    let mut all = Vec::with_capacity(alloc, numbers.len())?;
    for number in numbers {
        all.push(signed(sense, number))?;
    }
    Ok(all)
}

fn opposite(sense: Sense) -> Sense
    ensures { result ≡ opposite sense }
{
    match sense {
        Sense::Min => Sense::Max,
        Sense::Max => Sense::Min,
    }
}
