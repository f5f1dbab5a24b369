//! How each kind is bridged.
ghost use Rattle.std.specs.Prelude.{◌≡◌, ◌≤◌, [], ◌++◌, OnOk, IfOk, decimal, flat_map, length};
ghost use Rattle.std.specs.List.{zip};
ghost use Rattle.std.specs.Option.{option_map_or};
ghost use Rattle.report_core.specs.Plan.{choice_text, family_at, kind_line, plan_text};

use crate::draft::Draft;
use bridge_graph::Choice;
use item_core::{EDGES, EdgeEntry, KIND_COUNT, KINDS, Kind};
use name_index::Text;
use ratio_core::Memory;
use script_tokens::family_text;
use std::alloc::Global;

/// A line for each kind, with its choice and what that costs. Edges are counted from 0, and
/// printed from 1.
#[tactic(auto, unfolding(crate::specs::Plan::plan_text))]
pub fn plan(alloc: Global, choices: &[(Choice, Option<u128>); KIND_COUNT]) -> Result<Text, Memory>
    ensures { IfOk result (λ text. text ≡ plan_text choices.now) }
{
    let mut draft = Draft::new(alloc);
    push_lines(&mut draft, &KINDS.kinds, choices)?;
    Ok(draft.into_text())
}

// A line for each kind with its choice.
#[tactic(auto, using(crate::proofs::Lines::lines_more, crate::proofs::Lines::lines_all))]
fn push_lines(
    draft: &mut Draft,
    kinds: &[Kind],
    choices: &[(Choice, Option<u128>)],
) -> Result<(), Memory>
    requires { length kinds.now ≤ length choices.now }
    ensures { OnOk result (draft.new
        ≡ draft.old ++ flat_map kind_line (zip kinds.now choices.now)) }
{
    for (place, kind) in kinds.iter().enumerate() {
        let (choice, cost) = choices[place];
        push_line(draft, *kind, choice, cost)?;
    }
    Ok(())
}

fn push_line(
    draft: &mut Draft,
    kind: Kind,
    choice: Choice,
    cost: Option<u128>,
) -> Result<(), Memory>
    ensures { OnOk result (draft.new ≡ draft.old ++ kind_line (kind, (choice, cost))) }
{
    draft.push_kind(kind)?;
    push_choice(draft, choice, cost)?;
    draft.push("\n")
}

fn push_choice(draft: &mut Draft, choice: Choice, cost: Option<u128>) -> Result<(), Memory>
    ensures { OnOk result (draft.new ≡ draft.old ++ choice_text choice cost) }
{
    match choice {
        Choice::Native => draft.push(" native"),
        Choice::By(place) => {
            draft.push(" edge ")?;
            draft.push_number(u128::from(place) + 1)?;
            draft.push(" ")?;
            push_family(draft, &EDGES, place)?;
            draft.push(" cost ")?;
            push_cost(draft, cost)
        }
        Choice::Missing => draft.push(" none"),
    }
}

// The name of the family of the edge at a place.
fn push_family(draft: &mut Draft, rows: &[EdgeEntry], place: u8) -> Result<(), Memory>
    ensures { OnOk result (draft.new ≡ draft.old ++ family_at rows.now place) }
{
    match rows.get(usize::from(place)) {
        Some(row) => draft.push(family_text(row.family)),
        None => Ok(()),
    }
}

fn push_cost(draft: &mut Draft, cost: Option<u128>) -> Result<(), Memory>
    ensures { OnOk result (draft.new ≡ draft.old ++ option_map_or decimal cost []) }
{
    match cost {
        Some(cost) => draft.push_number(cost),
        None => Ok(()),
    }
}
