//! The names of the dual's variables and rows.
ghost use Rattle.std.specs.Prelude.{◌≡◌, ◌∷◌, ◌<◌, IfOk, decimal};
ghost use Rattle.name_index.specs.Name.{HasNameLength};
ghost use Rattle.dual_model.specs.DualOf.{part_name, part_names};

use itoa::Buffer;
use lists::Memory;
use name_index::{Name, NameFault, Names};
use std::alloc::Global;

/// A letter with the place of a row or group and that of a component, both from 1, as in `y2_1`.
#[tactic(auto, using(crate::proofs::NameLemmas::names))]
pub(crate) fn part_name(
    alloc: Global,
    letter: char,
    item: usize,
    component: usize,
) -> Result<Name, Memory>
    requires { letter < 128 }
    ensures { IfOk result (λ name. name ≡ part_name letter item component) }
{
    let mut digits = Buffer::new();
    let mut text = String::new(alloc);
    text.push(letter)?;
    text.push_str(digits.format(item))?;
    text.push('_')?;
    text.push_str(digits.format(component))?;
    name_of(alloc, text.as_str())
}

/// The names of one letter for the components of a row.
#[tactic(auto, using(crate::proofs::NameLemmas::names))]
pub(crate) fn part_names(
    alloc: Global,
    letter: char,
    item: usize,
    count: usize,
) -> Result<Names, Memory>
    requires { letter < 128 }
    ensures { IfOk result (λ names. names ≡ part_names letter item 1 count) }
{
    let mut names = Vec::with_capacity(alloc, count)?;
    for i in 0..count {
        names.push(part_name(alloc, letter, item, 1 + i)?)?;
    }
    Ok(Names::from_vec(names))
}

/// The name of the row of the group with a place, as in `g2`.
#[tactic(auto, using(crate::proofs::NameLemmas::names))]
pub(crate) fn row_name(alloc: Global, item: usize) -> Result<Name, Memory>
    ensures { IfOk result (λ name. name ≡ 103 ∷ decimal item) }
{
    let mut digits = Buffer::new();
    let mut text = String::from_str(alloc, "g")?;
    text.push_str(digits.format(item))?;
    name_of(alloc, text.as_str())
}

#[tactic(auto, using(crate::proofs::NameLemmas::names))]
fn name_of(alloc: Global, text: &str) -> Result<Name, Memory>
    requires { HasNameLength text.now }
    ensures { IfOk result (λ name. name ≡ text.now) }
{
    match Name::new(alloc, text) {
        Ok(name) => Ok(name),
        Err(NameFault::BadName) => unreachable!(),
        Err(NameFault::Memory) => Err(Memory),
    }
}
