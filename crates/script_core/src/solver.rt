//! Lines that ask the solver or name a file.
ghost use Rattle.std.specs.Prelude.{◌≡◌, IfOk};
ghost use Rattle.script_core.specs.Solver.{load_form, optimize_form};

use crate::Command;
use crate::names::last_name;
use crate::reading::{LineReading, says};
use ratio_core::Memory;
use script_tokens::{Tokens, read_number};
use std::alloc::Global;

/// `optimize`, `optimize N`
#[tactic(auto, unfolding(crate::specs::Solver::optimize_form))]
pub fn optimize(mut tokens: Tokens<'_>) -> Option<LineReading>
    ensures { result ≡ optimize_form tokens.entry }
{
    let Some(number) = tokens.next() else {
        return says(Command::Optimize(None));
    };
    let None = tokens.next() else {
        return None;
    };
    let pivots = read_number(number)?;
    says(Command::Optimize(Some(pivots)))
}

/// `load S`
#[tactic(auto, unfolding(crate::specs::Solver::load_form))]
pub fn load(alloc: Global, tokens: Tokens<'_>) -> Result<Option<LineReading>, Memory>
    ensures { IfOk result (λ reading. reading ≡ load_form tokens.entry) }
{
    let Some(file) = last_name(alloc, tokens)? else {
        return Ok(None);
    };
    Ok(says(Command::Load(file)))
}
