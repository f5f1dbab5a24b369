//! Whether each item that was found has a tree.
ghost use Rattle.std.specs.Prelude.{◌≡◌, ◌++◌, ◌∷◌, [], OnOk};
ghost use Rattle.std.specs.Prelude as prelude;
ghost use Rattle.std.specs.Option.{option_copied, option_map_or};
ghost use Rattle.fresh_bridging.specs.ModelImage.{group_item};
ghost use Rattle.model_bridging.specs.Found.{found_others, kept_over};
ghost use Rattle.model_bridging.specs.Kinds.{first_missing, kind_by};
ghost use Rattle.model_bridging.specs.PlanOutcome.{KindsOutcome};
ghost use Rattle.found_plan.specs.Marked.{TellsMarks, plain_in, plain_in_objective, plain_in_row};
ghost use Rattle.found_plan.specs.Read.{is_marked};

use address_map::AddressMap;
use aff_core::{Address, ByAddress};
use bridge_plan::Rewriter;
use lists::Memory;
use model_bridging::{PushFault, check_found_others, tell_groups};
use std::alloc::Global;
use user_model::{Group, Objective, Row, UserFunc};

/// Refuses the first of these rows, or else this objective, that has no tree. A variable is kept as
/// the kind of its group tells, where that is one of these groups, and else as the map has it marked.
pub fn check_found<R: Rewriter>(
    alloc: Global,
    rewriter: &R,
    map: &AddressMap,
    groups: &[&Group],
    rows: &[&Row],
    objective: Option<&Objective>,
) -> Result<(), PushFault>
    ensures { let choice = (R.means rewriter.now).choice in
        let kept = kept_over choice (is_marked map.now)
        (prelude.map group_item (prelude.map (λ g. g.now) groups.now)) in
        KindsOutcome result (first_missing choice (prelude.map (λ i. kind_by kept i.body)
        (found_others (prelude.map (λ r. r.now) rows.now) (option_copied objective.entry)))) }
{
    let mut kept = ByAddress::new(alloc);
    tell_found(&mut kept, map, rows, objective)?;
    tell_groups(rewriter, &mut kept, groups)?;
    check_found_others(rewriter, &kept, rows, objective)
}

// Marks of the variables that plain functions name.
fn tell_found(
    kept: &mut ByAddress<bool>,
    map: &AddressMap,
    rows: &[&Row],
    objective: Option<&Objective>,
) -> Result<(), Memory>
    ensures { OnOk result (TellsMarks map.now (plain_in (prelude.map (λ r. r.now) rows.now)
        ++ option_map_or plain_in_objective (option_copied objective.entry) []) kept.old
        kept.new) }
{
    tell_rows(kept, map, rows)?;
    match objective {
        None => Ok(()),
        Some(objective) => tell_objective(kept, map, objective),
    }
}

fn tell_rows(kept: &mut ByAddress<bool>, map: &AddressMap, rows: &[&Row]) -> Result<(), Memory>
    ensures { OnOk result (TellsMarks map.now (plain_in (prelude.map (λ r. r.now) rows.now)) kept.old
        kept.new) }
{
    for row in rows {
        tell_row(kept, map, &row.func)?;
    }
    Ok(())
}

fn tell_row(kept: &mut ByAddress<bool>, map: &AddressMap, func: &UserFunc) -> Result<(), Memory>
    ensures { OnOk result (TellsMarks map.now (plain_in_row func.now) kept.old kept.new) }
{
    match func {
        UserFunc::Plain(var) => tell_variable(kept, map, var),
        UserFunc::PlainVec(vars) => tell_each(kept, map, vars.as_slice()),
        UserFunc::Affine(_) | UserFunc::AffineVec(_) => Ok(()),
    }
}

fn tell_objective(
    kept: &mut ByAddress<bool>,
    map: &AddressMap,
    objective: &Objective,
) -> Result<(), Memory>
    ensures { OnOk result (TellsMarks map.now (plain_in_objective objective.now) kept.old kept.new) }
{
    match objective {
        Objective::Plain { var, .. } => tell_variable(kept, map, var),
        Objective::Feasibility | Objective::Affine { .. } => Ok(()),
    }
}

fn tell_each(kept: &mut ByAddress<bool>, map: &AddressMap, vars: &[Address]) -> Result<(), Memory>
    ensures { OnOk result (TellsMarks map.now vars.now kept.old kept.new) }
{
    for var in vars {
        tell_variable(kept, map, var)?;
    }
    Ok(())
}

fn tell_variable(kept: &mut ByAddress<bool>, map: &AddressMap, var: &Address) -> Result<(), Memory>
    ensures { OnOk result (TellsMarks map.now (var.now ∷ []) kept.old kept.new) }
{
    match kept.put(*var, map.is_kept(var)) {
        Ok(_) => Ok(()),
        Err((_, memory)) => Err(memory),
    }
}
