//! The names of the slacks.
ghost use Rattle.std.specs.Prelude.{◌≡◌, ◌+◌, ◌*◌, ◌^◌, ◌<◌, ◌≤◌, IfOk, length};
ghost use Rattle.name_index.specs.Name.{HasNameLength};
ghost use Rattle.user_model.specs.Refusals.{has_variable_named};
ghost use Rattle.certificates.specs.Points.{variables_of};
ghost use Rattle.relaxed_model.specs.Relaxed.{free_names, free_number, slack_name};

use itoa::Buffer;
use lists::Memory;
use model_store::UserModel;
use name_index::{Name, NameFault};
use std::alloc::Global;
use user_model::Groups;

/// The names of the slacks, which no variable of the model has. The k-th is `~k`. Where that is taken,
/// its number is raised by the number of slacks until the name is free.
#[tactic(auto, using(crate::proofs::NameLemmas::names))]
pub(crate) fn free_names(
    alloc: Global,
    model: &UserModel,
    count: usize,
) -> Result<Vec<Name>, Memory>
    requires { count ≤ 131070 }
    ensures { IfOk result (λ names. names.items ≡ free_names model.now.model count 1 count) }
{
    let tries = variable_count(model.groups());
    let mut names = Vec::with_capacity(alloc, count)?;
    for i in 0..count {
        names.push(free_name(alloc, model, count, 1 + i, tries)?)?;
    }
    Ok(names)
}

// How many variables the groups have.
#[tactic(auto, using(crate::proofs::NameLemmas::first_variables))]
fn variable_count(groups: &Groups) -> usize
    requires { length (variables_of groups.now.items) ≤ 65535 }
    ensures { result ≡ length (variables_of groups.now.items) }
{
    let mut count = 0;
    for group in groups.iter() {
        count += group.vars.len();
    }
    count
}

// The first free name among the numbers first, first + step and so on. After `tries` taken ones
// the next is returned untested.
#[tactic(auto, using(crate::proofs::NameLemmas::tries))]
fn free_name(
    alloc: Global,
    model: &UserModel,
    step: usize,
    first: usize,
    tries: usize,
) -> Result<Name, Memory>
    requires { first + tries * step < 2 ^ 63 }
    ensures { IfOk result (λ name. name
        ≡ slack_name (free_number model.now.model step tries first)) }
{
    let mut n = first;
    for tried in 0..tries {
        let name = slack_name(alloc, n)?;
        if !is_taken(model, &name) {
            return Ok(name);
        }
        n += step;
    }
    slack_name(alloc, n)
}

// Whether a variable of the model has the name.
#[tactic(auto, using(crate::proofs::NameLemmas::is_named))]
fn is_taken(model: &UserModel, name: &Name) -> bool
    ensures { result ≡ has_variable_named model.now.model name.now }
{
    model.variable(name).is_some()
}

// A slack's name by its number, as in `~3`.
#[tactic(auto, using(crate::proofs::NameLemmas::texts))]
fn slack_name(alloc: Global, number: usize) -> Result<Name, Memory>
    ensures { IfOk result (λ name. name ≡ slack_name number) }
{
    let mut digits = Buffer::new();
    let mut text = String::from_str(alloc, "~")?;
    text.push_str(digits.format(number))?;
    name_of(alloc, text.as_str())
}

#[tactic(auto, using(crate::proofs::NameLemmas::texts))]
fn name_of(alloc: Global, text: &str) -> Result<Name, Memory>
    requires { HasNameLength text.now }
    ensures { IfOk result (λ name. name ≡ text.now) }
{
    match Name::new(alloc, text) {
        Ok(name) => Ok(name),
        Err(NameFault::BadName) => unreachable!(),
        Err(NameFault::Memory) => Err(Memory),
    }
}
