//! Lines that change the table.
ghost use Rattle.std.specs.Prelude.{◌≡◌};
ghost use Rattle.script_core.specs.Tables.{cost_form, cost_of, support_form, switch_form, target_form};

use crate::reading::{LineReading, says};
use crate::{Command, EdgeCost};
use script_tokens::{
    Tokens, edge_numbered, read_family, read_native_kind, read_number, read_target,
};

/// `target T`
#[tactic(auto, unfolding(crate::specs::Tables::target_form))]
pub fn target(mut tokens: Tokens<'_>) -> Option<LineReading>
    ensures { result ≡ target_form tokens.entry }
{
    let (Some(word), None) = (tokens.next(), tokens.next()) else {
        return None;
    };
    let target = read_target(word)?;
    says(Command::Target(target))
}

/// `support K`, `unsupport K`
#[tactic(auto, unfolding(crate::specs::Tables::support_form))]
pub fn support(value: bool, mut tokens: Tokens<'_>) -> Option<LineReading>
    ensures { result ≡ support_form value tokens.entry }
{
    let (Some(word), None) = (tokens.next(), tokens.next()) else {
        return None;
    };
    let kind = read_native_kind(word)?;
    says(Command::Support { kind, value })
}

/// `cost E N`
#[tactic(auto, unfolding(crate::specs::Tables::cost_form))]
pub fn cost(mut tokens: Tokens<'_>) -> Option<LineReading>
    ensures { result ≡ cost_form tokens.entry }
{
    let (Some(edge), Some(cost), None) = (tokens.next(), tokens.next(), tokens.next()) else {
        return None;
    };
    let place = read_number(edge)?;
    let edge = edge_numbered(place)?;
    let cost = read_cost(cost)?;
    says(Command::Cost { edge, cost })
}

// What an edge may cost.
#[tactic(auto, unfolding(crate::specs::Tables::cost_of))]
fn read_cost(token: &[u8]) -> Option<EdgeCost>
    ensures { result ≡ cost_of token.now }
{
    let cost = read_number(token)?;
    EdgeCost::new(cost)
}

/// `on F`, `off F`
#[tactic(auto, unfolding(crate::specs::Tables::switch_form))]
pub fn switch(value: bool, mut tokens: Tokens<'_>) -> Option<LineReading>
    ensures { result ≡ switch_form value tokens.entry }
{
    let (Some(word), None) = (tokens.next(), tokens.next()) else {
        return None;
    };
    let family = read_family(word)?;
    says(Command::Switch { family, value })
}
