//! The variables of groups that differ, and which of them change.
ghost use Rattle.std.specs.Prelude.{◌≡◌, ◌++◌, IfOk, OnOk, filter, map, not};
ghost use Rattle.fresh_bridging.specs.Entries.{expression_in};
ghost use Rattle.user_model.specs.Model.{variable_address};
ghost use Rattle.touched_items.specs.Differences.{own_variables, variables_in};
ghost use Rattle.touched_items.specs.HeldExpressions.{is_itself, stays_as};

use crate::Differing;
use address_map::AddressMap;
use aff_core::{Address, Root};
use bridge_plan::Standing;
use lists::Memory;
use std::alloc::Global;
use user_model::{Group, GroupVar};

/// The variables of the groups that differ, as they were, and then as they are.
pub fn own_variables(alloc: Global, differing: &Differing<'_>) -> Result<Vec<Address>, Memory>
    ensures { IfOk result (λ vars. vars.items ≡ own_variables differing.now) }
{
    let mut vars = Vec::new(alloc);
    list_variables(&differing.before.groups, &mut vars)?;
    list_variables(&differing.after.groups, &mut vars)?;
    Ok(vars)
}

fn list_variables(groups: &[&Group], vars: &mut Vec<Address>) -> Result<(), Memory>
    ensures { OnOk result
        (vars.new.items ≡ vars.old.items ++ variables_in (map (λ g. g.now) groups.now)) }
{
    for group in groups {
        list_own(group.vars.as_slice(), vars)?;
    }
    Ok(())
}

fn list_own(own: &[GroupVar], vars: &mut Vec<Address>) -> Result<(), Memory>
    ensures { OnOk result (vars.new.items
        ≡ vars.old.items ++ map (λ v. variable_address v.number) own.now) }
{
    for var in own {
        vars.push(Address::root(Root::Variable, var.number))?;
    }
    Ok(())
}

/// Those of the variables for which something else is to stand than what the map has: another
/// function, or a variable in place of a function or the other way round.
pub fn changed_variables(
    alloc: Global,
    map: &AddressMap,
    standing: &Standing,
    vars: &[Address],
) -> Result<Vec<Address>, Memory>
    ensures { IfOk result (λ changed. changed.items
        ≡ filter (λ v. not (stays_as map.now v (expression_in standing.now v))) vars.now) }
{
    let mut changed = Vec::new(alloc);
    for var in vars {
        if !stays_as(map, standing, var)? {
            changed.push(*var)?;
        }
    }
    Ok(changed)
}

// Whether what is to stand for a variable is what the map has for it.
fn stays_as(map: &AddressMap, standing: &Standing, var: &Address) -> Result<bool, Memory>
    ensures { IfOk result (λ stays. stays
        ≡ stays_as map.now var.now (expression_in standing.now var.now)) }
{
    let kept = standing.kept(var);
    let Some(function) = map.expr(var) else {
        return Ok(is_itself(kept, var));
    };
    if map.is_kept(var) != kept.is_some() {
        return Ok(false);
    }
    Ok(*function == standing.function(var)?)
}

fn is_itself(kept: Option<Address>, var: &Address) -> bool
    ensures { result ≡ is_itself var.now kept }
{
    match kept {
        Some(kept) => kept == *var,
        None => false,
    }
}
