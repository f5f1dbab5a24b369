//! Whether each item of the user's model has a tree, before any number is worked out.
//!
//! The kind of a row with plain functions depends on whether its variables are kept, which the kinds
//! of their groups tell.
ghost use Rattle.std.specs.Prelude.{◌≡◌, ◌∷◌, ◌++◌, [], IfOk, OnOk, cond, map};
ghost use Rattle.std.specs.List.{list_all, list_any};
ghost use Rattle.aff_core.specs.Address.{Address, address_eq};
ghost use Rattle.bridge_face.specs.ImageOf.{begins_free};
ghost use Rattle.item_core.specs.Edge.{kinds_in};
ghost use Rattle.item_core.specs.KindOf as kinds;
ghost use Rattle.item_core.specs.declared.kind.Kind.TheVariants as kind;
ghost use Rattle.fresh_bridging.specs.ModelImage.{group_item, objective_items, row_item};
ghost use Rattle.user_model.specs.Model.{variable_address};
ghost use Rattle.bridge_plan.specs.KeptGroups.{is_native_choice, keeps};
ghost use Rattle.model_bridging.specs.Kinds.{first_missing, is_kept_by, is_plain_by, kind_by, kinds_told, objective_kind_by, told};
ghost use Rattle.model_bridging.specs.PlanOutcome.{KindsOutcome};

use crate::PushFault;
use aff_core::{Address, ByAddress, Root, Sense};
use bridge_graph::Choice;
use bridge_plan::{Rewriter, edge_of};
use item_core::{Children, Kind, affine_kind, group_kind, plain_kind};
use lists::Memory;
use set_core::Set;
use std::alloc::Global;
use user_model::{GroupVar, Groups, Objective, Row, Rows, UserFunc};

// Refuses the first of the user's items that has no tree.
pub(crate) fn check_kinds<R: Rewriter>(
    alloc: Global,
    rewriter: &R,
    groups: &Groups,
    rows: &Rows,
    objective: &Objective,
) -> Result<(), PushFault>
    ensures { let choice = (R.means rewriter.now).choice in
        KindsOutcome result (first_missing choice (kinds_told choice (map group_item groups.now.items)
        (map row_item rows.now.items ++ objective_items objective.now))) }
{
    check_groups(rewriter, groups)?;
    let kept = kept_variables(alloc, rewriter, groups)?;
    check_rows(rewriter, &kept, rows)?;
    check_objective(rewriter, &kept, objective)
}

fn check_groups<R: Rewriter>(rewriter: &R, groups: &Groups) -> Result<(), PushFault>
    ensures { KindsOutcome result (first_missing (R.means rewriter.now).choice
        (map (λ i. kinds.kind_of_body i.body) (map group_item groups.now.items))) }
{
    for group in groups.iter() {
        check_kind(rewriter, group_kind(&group.set))?;
    }
    Ok(())
}

fn check_rows<R: Rewriter>(
    rewriter: &R,
    kept: &ByAddress<bool>,
    rows: &Rows,
) -> Result<(), PushFault>
    ensures { KindsOutcome result (first_missing (R.means rewriter.now).choice
        (map (λ i. kind_by (told kept.now) i.body) (map row_item rows.now.items))) }
{
    for row in rows.iter() {
        check_kind(rewriter, row_kind(kept, row))?;
    }
    Ok(())
}

pub(crate) fn check_objective<R: Rewriter>(
    rewriter: &R,
    kept: &ByAddress<bool>,
    objective: &Objective,
) -> Result<(), PushFault>
    ensures { KindsOutcome result (first_missing (R.means rewriter.now).choice
        (map (λ i. kind_by (told kept.now) i.body) (objective_items objective.now))) }
{
    match objective {
        Objective::Feasibility => Ok(()),
        Objective::Plain { sense, var } => {
            check_kind(rewriter, objective_kind(*sense, is_kept(kept, var)))
        }
        Objective::Affine { sense, .. } => check_kind(rewriter, objective_kind(*sense, false)),
    }
}

pub(crate) fn check_kind<R: Rewriter>(rewriter: &R, kind: Kind) -> Result<(), PushFault>
    ensures { KindsOutcome result (first_missing (R.means rewriter.now).choice (kind ∷ [])) }
{
    match rewriter.choice(kind) {
        Choice::Missing => Err(PushFault::Unsupported { kind }),
        _ => Ok(()),
    }
}

// Whether each of the user's variables is kept.
fn kept_variables<R: Rewriter>(
    alloc: Global,
    rewriter: &R,
    groups: &Groups,
) -> Result<ByAddress<bool>, Memory>
    ensures { IfOk result (λ kept. (v : Address) → told kept v
        ≡ is_kept_by (R.means rewriter.now).choice (map group_item groups.now.items) v) }
{
    let mut kept = ByAddress::new(alloc);
    for group in groups.iter().rev() {
        let stays = keeps(rewriter, group_kind(&group.set));
        tell(&mut kept, group.vars.as_slice(), stays)?;
    }
    Ok(kept)
}

// Says of variables whether they are kept.
pub(crate) fn tell(kept: &mut ByAddress<bool>, vars: &[GroupVar], keeps: bool) -> Result<(), Memory>
    ensures { OnOk result ((v : Address) → told kept.new v
        ≡ cond (list_any (λ u. address_eq u v) (map (λ x. variable_address x.number) vars.now))
        keeps (told kept.old v)) }
{
    for var in vars {
        let Ok(_) = kept.put(Address::root(Root::Variable, var.number), keeps) else {
            return Err(Memory);
        };
    }
    Ok(())
}

fn is_kept(kept: &ByAddress<bool>, var: &Address) -> bool
    ensures { result ≡ told kept.now var.now }
{
    kept.get(var).copied().unwrap_or(true)
}

// A group keeps its variables where it is native, or is bridged later from a native group.
pub(crate) fn keeps<R: Rewriter>(rewriter: &R, kind: Kind) -> bool
    ensures { result ≡ keeps (R.means rewriter.now).choice kind }
{
    match rewriter.choice(kind) {
        Choice::Native => true,
        Choice::By(edge) => {
            let entry = edge_of(edge).entry();
            entry.keeps && is_native(rewriter.choice(begun_kind(entry.children)))
        }
        Choice::Missing => false,
    }
}

fn is_native(choice: Choice) -> bool
    ensures { result ≡ is_native_choice choice }
{
    match choice {
        Choice::Native => true,
        Choice::By(_) | Choice::Missing => false,
    }
}

// The kind of the group that an edge with these children begins with, if it bridges later.
fn begun_kind(children: Children) -> Kind
    ensures { result ≡ cond (begins_free (kinds_in children)) kind.Free kind.GroupReals }
{
    match children {
        Children::One(Kind::Free)
        | Children::Two(Kind::Free, _)
        | Children::Three(Kind::Free, _, _) => Kind::Free,
        _ => Kind::GroupReals,
    }
}

// The kind of a row once the groups' expressions are put in.
pub(crate) fn row_kind(kept: &ByAddress<bool>, row: &Row) -> Kind
    ensures { result ≡ kind_by (told kept.now) (row_item row.now).body }
{
    function_kind(is_plain(kept, &row.func), &row.set)
}

// The kind of plain variables, or of another function, in a set.
fn function_kind(plain: bool, set: &Set) -> Kind
    ensures { result ≡ cond plain (kinds.plain_kind_of set.now) (kinds.affine_kind_of set.now) }
{
    if plain {
        plain_kind(set)
    } else {
        affine_kind(set)
    }
}

// Whether a function names variables, all of which are kept.
fn is_plain(kept: &ByAddress<bool>, func: &UserFunc) -> bool
    ensures { result ≡ is_plain_by (told kept.now) func.now }
{
    match func {
        UserFunc::Plain(var) => is_kept(kept, var),
        UserFunc::PlainVec(vars) => are_kept(kept, vars.as_slice()),
        UserFunc::Affine(_) | UserFunc::AffineVec(_) => false,
    }
}

fn are_kept(kept: &ByAddress<bool>, vars: &[Address]) -> bool
    ensures { result ≡ list_all (told kept.now) vars.now }
{
    vars.iter().all(|var| is_kept(kept, var))
}

// The kind of an objective that is a plain variable, or another function.
fn objective_kind(sense: Sense, plain: bool) -> Kind
    ensures { result ≡ objective_kind_by sense plain }
{
    match (sense, plain) {
        (Sense::Min, true) => Kind::MinPlain,
        (Sense::Min, false) => Kind::MinAffine,
        (Sense::Max, true) => Kind::MaxPlain,
        (Sense::Max, false) => Kind::MaxAffine,
    }
}
