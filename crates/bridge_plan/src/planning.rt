//! How an item is bridged.
ghost use Rattle.std.specs.Prelude.{◌≡◌, ◌++◌, ◌-◌, ◌+◌, ◌≤◌, [], ◌∷◌, IfOk, OnOk, IsTrue, All, length, map, slice_get};
ghost use Rattle.std.specs.List.{list_all, zip};
ghost use Rattle.ratio_core.specs.Answers.{ExactWhere};
ghost use Rattle.bridge_graph.specs.declared.Choice.TheVariants.{By};
ghost use Rattle.item_core.specs.declared.image.Expression.TheVariants as expressions;
ghost use Rattle.item_core.specs.Item.{variables_of};
ghost use Rattle.item_core.specs.Kind.{kind_number};
ghost use Rattle.item_core.specs.KindOf.{kind_of_body};
ghost use Rattle.bridge_face.specs.Law.{listed};
ghost use Rattle.fresh_bridging.specs.Entries.{put_in, put_into, put_into_fits};
ghost use Rattle.fresh_bridging.specs.TheRules.{edge_at, own_entries};
ghost use Rattle.bridge_plan.specs.AddsHeld.{AddsHeld};
ghost use Rattle.bridge_plan.specs.Worked.{IsItemWithinLevels, Splits, worked, worked_each, worked_in, worked_node};

use crate::{Entry, Plan, Rewriter, Standing};
use aff_core::Address;
use bridge_face::KeptItem;
use bridge_graph::Choice;
use item_core::{Body, Edge, Expression, Item, Items, kind_of};
use lists::Memory;
use ratio_core::NumberFault;
use std::alloc::Global;

/// Bridges an item, no deeper than this number of levels: appends its leaves and its nodes to the
/// plan, and the expressions of its components to the entries. `Overflow` exactly where a number
/// that the bridging is made with doesn't fit.
#[cycle(planning)]
pub fn plan_item<R: Rewriter>(
    alloc: Global,
    rewriter: &mut R,
    plan: &mut Plan,
    entries: &mut Vec<Entry>,
    item: Item,
    levels: u8,
) -> Result<(), NumberFault>
    requires { IsItemWithinLevels (R.means rewriter.old).choice levels item }
    ensures answer { let held = worked (R.means rewriter.old).choice levels item in
        ExactWhere result (IsTrue held.fits)
        (λ _. AddsHeld plan.old plan.new entries.old.items entries.new.items held) }
    ensures means { R.means rewriter.new ≡ R.means rewriter.old }
    ensures turns { OnOk result (R.turns rewriter.new + length plan.old.nodes.items
        ≤ R.turns rewriter.old + length plan.new.nodes.items) }
{
    match rewriter.choice(kind_of(&item)) {
        Choice::Native => Ok(plan_native(plan, entries, item)?),
        Choice::By(edge) => plan_node(alloc, rewriter, plan, entries, edge, item, levels),
        Choice::Missing => unreachable!(),
    }
}

// Bridges an item by an edge.
#[cycle(planning)]
fn plan_node<R: Rewriter>(
    alloc: Global,
    rewriter: &mut R,
    plan: &mut Plan,
    entries: &mut Vec<Entry>,
    edge: u8,
    item: Item,
    levels: u8,
) -> Result<(), NumberFault>
    requires some { 1 ≤ levels }
    requires chosen { (R.means rewriter.old).choice (kind_number (kind_of_body item.body))
        ≡ By edge }
    requires splits { let choice = (R.means rewriter.old).choice in
        Splits choice (worked choice (levels - 1)) (IsItemWithinLevels choice (levels - 1)) edge item }
    ensures answer { let choice = (R.means rewriter.old).choice in
        let held = worked_node choice (worked choice (levels - 1)) edge item in
        ExactWhere result (IsTrue held.fits)
        (λ _. AddsHeld plan.old plan.new entries.old.items entries.new.items held) }
    ensures means { R.means rewriter.new ≡ R.means rewriter.old }
    ensures turns { OnOk result (R.turns rewriter.new + length plan.old.nodes.items
        ≤ R.turns rewriter.old + length plan.new.nodes.items) }
{
    let image = match rewriter.image(edge, &item) {
        Ok(image) => image,
        Err(fault) => {
            // By name: freed here, an item would be taken apart by its variants.
            drop(item);
            return Err(fault);
        }
    };
    let place = plan.nodes.len();
    plan.nodes.push(KeptItem {
        edge: edge_of(edge),
        item,
    })?;
    let others = further(image.rows, image.objective)?;
    let mut inner = Vec::new(alloc);
    plan_each(alloc, rewriter, plan, &mut inner, image.groups, levels - 1)?;
    let mut standing = Standing::of(alloc, inner)?;
    plan_in(alloc, rewriter, plan, &mut standing, others, levels - 1)?;
    let body = &plan.nodes[place].item.body;
    outer_entries(entries, body, image.exprs.as_slice(), &mut standing)
}

// Bridges groups one after another.
#[cycle(planning)]
fn plan_each<R: Rewriter>(
    alloc: Global,
    rewriter: &mut R,
    plan: &mut Plan,
    entries: &mut Vec<Entry>,
    groups: Items,
    levels: u8,
) -> Result<(), NumberFault>
    requires { All (IsItemWithinLevels (R.means rewriter.old).choice levels) groups }
    ensures answer { let choice = (R.means rewriter.old).choice in
        let held = worked_each choice (worked choice levels) groups in
        ExactWhere result (IsTrue held.fits)
        (λ _. AddsHeld plan.old plan.new entries.old.items entries.new.items held) }
    ensures means { R.means rewriter.new ≡ R.means rewriter.old }
    ensures turns { OnOk result (R.turns rewriter.new + length plan.old.nodes.items
        ≤ R.turns rewriter.old + length plan.new.nodes.items) }
{
    for group in groups.into_vec() {
        plan_item(alloc, rewriter, plan, entries, group, levels)?;
    }
    Ok(())
}

// Bridges rows and objectives one after another, each with what stands for its variables put in.
#[cycle(planning)]
fn plan_in<R: Rewriter>(
    alloc: Global,
    rewriter: &mut R,
    plan: &mut Plan,
    standing: &mut Standing,
    items: Vec<Item>,
    levels: u8,
) -> Result<(), NumberFault>
    requires { All (λ item. IsItemWithinLevels (R.means rewriter.old).choice levels
        (put_in standing.old item)) items.items }
    ensures answer { let choice = (R.means rewriter.old).choice in
        let held = worked_in choice (worked choice levels) standing.old items.items in
        ExactWhere result (IsTrue held.fits) (λ _. AddsHeld plan.old plan.new [] [] held) }
    ensures means { R.means rewriter.new ≡ R.means rewriter.old }
    ensures turns { OnOk result (R.turns rewriter.new + length plan.old.nodes.items
        ≤ R.turns rewriter.old + length plan.new.nodes.items) }
    ensures same { standing.new ≡ standing.old }
{
    for item in items {
        let made = standing.put_in(item)?;
        let mut none = Vec::new(alloc);
        plan_item(alloc, rewriter, plan, &mut none, made, levels)?;
    }
    Ok(())
}

/// The edge of a number in the graph of kinds.
#[tactic(auto, using(item_core::specs::EdgeLaws::edge_or))]
pub fn edge_of(edge: u8) -> Edge
    ensures { result ≡ edge_at edge }
{
    Edge::numbered(edge as usize).unwrap_or(Edge::E1)
}

// Plans a native item: it is a leaf, and a group keeps its components.
fn plan_native(plan: &mut Plan, entries: &mut Vec<Entry>, item: Item) -> Result<(), Memory>
    ensures leaves { OnOk result (plan.new.leaves.items ≡ plan.old.leaves.items ++ item ∷ []) }
    ensures nodes { plan.new.nodes ≡ plan.old.nodes }
    ensures entries { OnOk result (entries.new.items ≡ entries.old.items ++ own_entries item) }
{
    let Ok(()) = keep_own(entries, &item) else {
        drop(item);
        return Err(Memory);
    };
    plan.leaves.push(item)?;
    Ok(())
}

// Puts the components of a native group last, each kept.
fn keep_own(entries: &mut Vec<Entry>, item: &Item) -> Result<(), Memory>
    ensures { OnOk result (entries.new.items ≡ entries.old.items ++ own_entries item.now) }
{
    match &item.body {
        Body::Group { vars, .. } | Body::Free { vars } => keep_each(entries, vars.as_slice()),
        _ => Ok(()),
    }
}

// Puts variables last, each kept.
fn keep_each(entries: &mut Vec<Entry>, vars: &[Address]) -> Result<(), Memory>
    ensures { OnOk result (entries.new.items ≡ entries.old.items
        ++ map (λ v. record { component = v; expression = expressions.Kept v }) vars.now) }
{
    for var in vars {
        entries.push(Entry {
            component: *var,
            expression: Expression::Kept { var: *var },
        })?;
    }
    Ok(())
}

// The rows, and the objective.
fn further(rows: Items, objective: Option<Item>) -> Result<Vec<Item>, Memory>
    ensures { IfOk result (λ items. items.items ≡ rows ++ listed objective) }
{
    let mut items = rows.into_vec();
    if let Some(item) = objective {
        items.push(item)?;
    }
    Ok(items)
}

// Puts the components of a group last, by their expressions over child groups and what stands for
// these.
fn outer_entries(
    entries: &mut Vec<Entry>,
    body: &Body,
    exprs: &[Expression],
    standing: &mut Standing,
) -> Result<(), NumberFault>
    ensures answer { ExactWhere result (IsTrue (list_all (put_into_fits standing.old) exprs.now))
        (λ _. entries.new.items ≡ entries.old.items
        ++ map (λ p. record { component = p.0; expression = put_into standing.old p.1 })
        (zip (variables_of body.now) exprs.now)) }
    ensures same { standing.new ≡ standing.old }
{
    for i in 0..exprs.len() {
        let expression = standing.put_into(&exprs[i])?;
        if let Some(component) = variable_at(body, i) {
            entries.push(Entry {
                component,
                expression,
            })?;
        }
    }
    Ok(())
}

// The variable of a body at a place.
fn variable_at(body: &Body, n: usize) -> Option<Address>
    ensures { result ≡ slice_get (variables_of body.now) n }
{
    match body {
        Body::Group { vars, .. } | Body::Free { vars } | Body::PlainVec { vars, .. } => {
            vars.get(n).copied()
        }
        Body::Plain { var, .. } | Body::PlainObj { var, .. } if n == 0 => Some(*var),
        _ => None,
    }
}
