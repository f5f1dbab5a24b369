//! What stands for the variables of groups: the function of each, and a mark where it is a variable.
ghost use Rattle.std.specs.Prelude.{◌≡◌, OnOk, Some, None, false};
ghost use Rattle.std.specs.Prelude as prelude;
ghost use Rattle.fresh_bridging.specs.Entries.{expression_in, function_in, is_kept};
ghost use Rattle.user_model.specs.Model.{variable_address};
ghost use Rattle.touched_items.specs.Differences.{variables_in};
ghost use Rattle.lazy_bridge.specs.Expressed.{SetsAt, SetsOne, expr_at, is_marked};

use crate::marks::set_kept;
use address_map::AddressMap;
use aff_core::{Address, Root};
use bridge_plan::Standing;
use lists::Memory;
use user_model::{Group, GroupVar};

// Takes out what stands for the variables of groups.
pub(crate) fn forget_groups(map: &mut AddressMap, groups: &[&Group])
    ensures exprs { SetsAt (λ _. None) (variables_in (prelude.map (λ g. g.now) groups.now))
        (expr_at map.old) (expr_at map.new) }
    ensures marks { SetsAt (λ _. false) (variables_in (prelude.map (λ g. g.now) groups.now))
        (is_marked map.old) (is_marked map.new) }
    ensures vars { map.new.vars ≡ map.old.vars }
    ensures rows { map.new.rows ≡ map.old.rows }
    ensures noted { map.new.noted ≡ map.old.noted }
{
    for group in groups {
        forget_each(map, group.vars.as_slice());
    }
}

fn forget_each(map: &mut AddressMap, vars: &[GroupVar])
    ensures exprs { SetsAt (λ _. None) (prelude.map (λ v. variable_address v.number) vars.now)
        (expr_at map.old) (expr_at map.new) }
    ensures marks { SetsAt (λ _. false) (prelude.map (λ v. variable_address v.number) vars.now)
        (is_marked map.old) (is_marked map.new) }
    ensures vars { map.new.vars ≡ map.old.vars }
    ensures rows { map.new.rows ≡ map.old.rows }
    ensures noted { map.new.noted ≡ map.old.noted }
{
    for var in vars {
        forget(map, &Address::root(Root::Variable, var.number));
    }
}

fn forget(map: &mut AddressMap, var: &Address)
    ensures exprs { SetsOne (λ _. None) var.now (expr_at map.old) (expr_at map.new) }
    ensures marks { SetsOne (λ _. false) var.now (is_marked map.old) (is_marked map.new) }
    ensures vars { map.new.vars ≡ map.old.vars }
    ensures rows { map.new.rows ≡ map.old.rows }
    ensures noted { map.new.noted ≡ map.old.noted }
{
    drop(map.drop_expr(var));
    let _marked = map.unmark_kept(var);
}

// Puts what stands for the variables of groups.
pub(crate) fn express_groups(
    map: &mut AddressMap,
    standing: &Standing,
    groups: &[&Group],
) -> Result<(), Memory>
    ensures exprs { OnOk result (SetsAt (λ v. Some (function_in standing.now v))
        (variables_in (prelude.map (λ g. g.now) groups.now)) (expr_at map.old) (expr_at map.new)) }
    ensures marks { OnOk result (SetsAt (λ v. is_kept (expression_in standing.now v))
        (variables_in (prelude.map (λ g. g.now) groups.now)) (is_marked map.old) (is_marked map.new)) }
    ensures vars { map.new.vars ≡ map.old.vars }
    ensures rows { map.new.rows ≡ map.old.rows }
    ensures noted { map.new.noted ≡ map.old.noted }
{
    for group in groups {
        express_each(map, standing, group.vars.as_slice())?;
    }
    Ok(())
}

fn express_each(map: &mut AddressMap, standing: &Standing, vars: &[GroupVar]) -> Result<(), Memory>
    ensures exprs { OnOk result (SetsAt (λ v. Some (function_in standing.now v))
        (prelude.map (λ v. variable_address v.number) vars.now) (expr_at map.old) (expr_at map.new)) }
    ensures marks { OnOk result (SetsAt (λ v. is_kept (expression_in standing.now v))
        (prelude.map (λ v. variable_address v.number) vars.now) (is_marked map.old)
        (is_marked map.new)) }
    ensures vars { map.new.vars ≡ map.old.vars }
    ensures rows { map.new.rows ≡ map.old.rows }
    ensures noted { map.new.noted ≡ map.old.noted }
{
    for var in vars {
        express(map, standing, Address::root(Root::Variable, var.number))?;
    }
    Ok(())
}

fn express(map: &mut AddressMap, standing: &Standing, var: Address) -> Result<(), Memory>
    ensures exprs { OnOk result (SetsOne (λ v. Some (function_in standing.now v)) var
        (expr_at map.old) (expr_at map.new)) }
    ensures marks { OnOk result (SetsOne (λ v. is_kept (expression_in standing.now v)) var
        (is_marked map.old) (is_marked map.new)) }
    ensures vars { map.new.vars ≡ map.old.vars }
    ensures rows { map.new.rows ≡ map.old.rows }
    ensures noted { map.new.noted ≡ map.old.noted }
{
    drop(map.put_expr(var, standing.function(&var)?)?);
    set_kept(map, var, standing.kept(&var).is_some())
}
