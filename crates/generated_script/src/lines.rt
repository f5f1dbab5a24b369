//! The lines of a script, each appended to a text.
ghost use Rattle.std.specs.Prelude.{◌≡◌, ◌+◌, ◌<◌, ◌≤◌, ◌^◌, ◌++◌, OnOk};
ghost use Rattle.generated_script.specs.Generator.{after};
ghost use Rattle.generated_script.specs.Parts.{IsPartOf, draws_of};
ghost use Rattle.generated_script.specs.Script.{bounded, edit_line, objective_line, row_line, text_of, variable_line};

use crate::generator::Generator;
use crate::numbers::Recipe;
use crate::parts::Part;
use crate::terms::Term;
use crate::texts::{push, push_number};
use lists::Memory;

/// Appends a line, by draws of the generator.
#[tactic(auto, unfolding(crate::specs::Script::text_of))]
pub(crate) fn push_line(
    line: &mut Vec<u8>,
    recipe: Recipe,
    part: Part,
    generator: &mut Generator,
) -> Result<(), Memory>
    requires { IsPartOf recipe part }
    ensures text { OnOk result
        (line.new.items ≡ line.old.items ++ text_of recipe part generator.old.state) }
    ensures moved { OnOk result
        (generator.new.state ≡ after (draws_of recipe part) generator.old.state) }
{
    match part {
        Part::Variable(place) => push_variable(line, place),
        Part::Row(place) => push_row(line, recipe.vars, place, generator),
        Part::Objective => push_objective(line, recipe.vars, generator),
        Part::Attach => push(line, "attach"),
        Part::Edit(_) => push_edit(line, recipe.rows, generator),
        Part::Optimize => push(line, "optimize"),
    }
}

fn push_variable(line: &mut Vec<u8>, place: u64) -> Result<(), Memory>
    requires { place + 1 < 2 ^ 64 }
    ensures { OnOk result (line.new.items ≡ line.old.items ++ variable_line place) }
{
    push(line, "var x")?;
    push_number(line, place + 1)?;
    push(line, " >= 0")
}

fn push_row(
    line: &mut Vec<u8>,
    vars: u32,
    place: u64,
    generator: &mut Generator,
) -> Result<(), Memory>
    requires some_variable { 1 ≤ vars }
    requires small { place + 1 < 2 ^ 64 }
    ensures text { OnOk result
        (line.new.items ≡ line.old.items ++ row_line vars place generator.old.state) }
    ensures moved { generator.new.state ≡ after 7 generator.old.state }
{
    let first = Term::draw(generator, vars);
    let second = Term::draw(generator, vars);
    let third = Term::draw(generator, vars);
    let bound = generator.draw() % 20;
    push_bounded(line, "row r", place + 1, bound)?;
    push(line, " :")?;
    first.push_to(line)?;
    second.push_to(line)?;
    third.push_to(line)
}

fn push_edit(line: &mut Vec<u8>, rows: u32, generator: &mut Generator) -> Result<(), Memory>
    requires { 1 ≤ rows }
    ensures text { OnOk result
        (line.new.items ≡ line.old.items ++ edit_line rows generator.old.state) }
    ensures moved { generator.new.state ≡ after 2 generator.old.state }
{
    let row = generator.draw() % rows;
    let bound = generator.draw() % 20;
    push_bounded(line, "set r", u64::from(row) + 1, bound)
}

// Appends the words, a row's number and its lower bound.
fn push_bounded(line: &mut Vec<u8>, words: &str, row: u64, bound: u32) -> Result<(), Memory>
    ensures { OnOk result (line.new.items ≡ line.old.items ++ bounded words.now row bound) }
{
    push(line, words)?;
    push_number(line, row)?;
    push(line, " >= ")?;
    push_number(line, u64::from(bound))
}

fn push_objective(line: &mut Vec<u8>, vars: u32, generator: &mut Generator) -> Result<(), Memory>
    ensures text { OnOk result
        (line.new.items ≡ line.old.items ++ objective_line vars generator.old.state) }
    ensures moved { OnOk result (generator.new.state ≡ after vars generator.old.state) }
{
    push(line, "min")?;
    for place in 0..vars {
        let coefficient = 1 + generator.draw() % 9;
        Term { coefficient, place }.push_to(line)?;
    }
    Ok(())
}
