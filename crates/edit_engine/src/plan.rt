//! How each kind is bridged at least cost.
ghost use Rattle.std.specs.Prelude.{◌≡◌, All, length};
ghost use Rattle.std.specs.List.{zip};
ghost use Rattle.fresh_bridging.specs.TheRules.{graph_of};
ghost use Rattle.lazy_bridge.specs.Owned.{setting_in};
ghost use Rattle.edit_engine.specs.Script.{AreKindChoices, IsChosen};

use bridge_face::Bridge;
use bridge_graph::Choice;
use item_core::{KIND_COUNT, KINDS, Kind};
use lazy_bridge::Lazy;

// Each kind's choice and what that costs.
pub(crate) fn choices_of<B: Bridge>(lazy: &Lazy<B>) -> [(Choice, Option<u128>); KIND_COUNT]
    ensures { AreKindChoices (graph_of (setting_in lazy.now)) result }
{
    let mut choices = [(Choice::Missing, None); KIND_COUNT];
    write_choices(lazy, &KINDS.kinds, &mut choices);
    choices
}

fn write_choices<B: Bridge>(lazy: &Lazy<B>, kinds: &[Kind], choices: &mut [(Choice, Option<u128>)])
    requires { length choices.old ≡ length kinds.now }
    ensures { All (IsChosen (graph_of (setting_in lazy.now))) (zip kinds.now choices.new) }
{
    for (place, kind) in kinds.iter().enumerate() {
        choices[place] = choice_of(lazy, *kind);
    }
}

fn choice_of<B: Bridge>(lazy: &Lazy<B>, kind: Kind) -> (Choice, Option<u128>)
    ensures { IsChosen (graph_of (setting_in lazy.now)) (kind, result) }
{
    (lazy.choice(kind), lazy.cost(kind))
}
