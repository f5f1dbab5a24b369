//! The lines of a generated script, by their numbers and one after another.
ghost use Rattle.std.specs.Prelude.{◌≡◌, IfOk, IsTrue, OnErr, OnOk};
ghost use Rattle.generated_script.specs.ScriptNumbers.{is_in_range, numbers_of};
ghost use Rattle.generated_script.specs.Script.{after_line, script_line};

use crate::generator::Generator;
use crate::lines::push_line;
use crate::numbers::Recipe;
use lists::{Memory, Sequence};
use name_index::Text;
use std::alloc::Global;
use std::marker::Model;

/// The lines of a generated script, one after another.
#[derive(Drop)]
pub struct ScriptLines {
    alloc: Global,
    recipe: Recipe,
    // the number of the next line
    next: u64,
    generator: Generator,
}

impl Model for ScriptLines {
    ghost use Rattle.std.specs.Prelude.{◌≡◌, ◌≤◌};
    ghost use Rattle.generated_script.specs.Parts.{line_count};
    ghost use Rattle.generated_script.specs.Script.{ScriptFrom, script_from_code, state_before};

    ghost Value = { ScriptFrom };

    ghost coded = { script_from_code };

    ghost view = { λ s. record { numbers = s.recipe; next = s.next } };

    ghost invariant = { λ s. (s.next ≤ line_count s.recipe)
        × (s.generator.state ≡ state_before s.recipe s.next) };
}

impl ScriptLines {
    /// From the first line on.
    pub fn new(alloc: Global, recipe: Recipe) -> ScriptLines
        ensures { result ≡ record { numbers = recipe; next = 0 } }
    {
        ScriptLines {
            alloc,
            recipe,
            next: 0,
            generator: Generator { state: recipe.seed },
        }
    }

    /// The next line, and nothing past the last. After `Memory` that line is still the next.
    pub fn next_line(&mut self) -> Result<Option<Text>, Memory>
        ensures line { IfOk result (λ line. line ≡ script_line self.old.numbers self.old.next) }
        ensures ok { OnOk result (self.new ≡ after_line self.old) }
        ensures err { OnErr result (self.new ≡ self.old) }
    {
        if self.next == self.recipe.line_count() {
            return Ok(None);
        }
        let part = self.recipe.part_at(self.next);
        let mut generator = self.generator;
        let mut line = Vec::new(self.alloc);
        push_line(&mut line, self.recipe, part, &mut generator)?;
        self.generator = generator;
        self.next += 1;
        Ok(Some(Sequence::from_vec(line)))
    }
}

impl Recipe {
    /// Line k of the script, counted from 0, and nothing past its end. It takes no longer for a
    /// later line: the draws of the lines before it are made at once.
    pub fn line(self, alloc: Global, k: u64) -> Result<Option<Text>, Memory>
        ensures { IfOk result (λ line. line ≡ script_line self k) }
    {
        if self.line_count() <= k {
            return Ok(None);
        }
        let part = self.part_at(k);
        let start = Generator { state: self.seed };
        let mut generator = start.after(self.draws_before(part));
        let mut line = Vec::new(alloc);
        push_line(&mut line, self, part, &mut generator)?;
        Ok(Some(Sequence::from_vec(line)))
    }
}

/// Line k of the script that the numbers generate, counted from 0, and nothing past its end.
pub fn script_line(
    alloc: Global,
    seed: u32,
    vars: u32,
    rows: u32,
    edits: u32,
    k: u64,
) -> Result<Option<Text>, Memory>
    requires { IsTrue (is_in_range (numbers_of seed vars rows edits)) }
    ensures { IfOk result (λ line. line ≡ script_line (numbers_of seed vars rows edits) k) }
{
    match Recipe::new(seed, vars, rows, edits) {
        Some(recipe) => recipe.line(alloc, k),
        None => unreachable!(),
    }
}
